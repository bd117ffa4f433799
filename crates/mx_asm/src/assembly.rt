//! From a source to its image.
ghost use Rattle.std.specs.Prelude.{◌≡◌, ◌≤◌, ◌^◌, List, ℕ, length, None, IfOk, IfErr};
ghost use Rattle.mx_image.specs.Image.{image_of};
ghost use Rattle.mx_image.specs.Lawful.{IsProgram};
ghost use Rattle.mx_asm.specs.Denoted.{program_of, first_fault, IsToldOf};

use crate::emission::program;
use crate::faults::first_fault;
use crate::labels::collect_labels;
use crate::refusal::AsmRefused;
use mx_image::write;
use mx_words::Blob;
use std::alloc::Global;

/// The image of the program that a source denotes, an executable file for RISC-V with 32 bits, or the source's first
/// fault.
/// The text has at most 1048576 bytes. Where memory is refused the answer is `NoMemory`.
pub fn assemble(alloc: Global, text: &str) -> Result<Blob, AsmRefused>
    requires { length text.now ≤ 2 ^ 20 }
    ensures image { IfOk result (λ blob. blob ≡ image_of (program_of text.now)) }
    ensures faultless { IfOk result (λ blob. first_fault text.now ≡ None) }
    ensures refusal { IfErr result (IsToldOf (first_fault text.now)) }
{
    let labels = collect_labels(alloc, text)?;
    if let Some(fault) = first_fault(text, &labels) {
        return Err(AsmRefused::Fault {
            line: fault.line,
            number: fault.number,
        });
    }
    let program = program(alloc, text, &labels)?;
    Ok(write(alloc, &program)?)
}

/// A source of at most 1048576 bytes without faults denotes a program whose image `read_image` and `symbol` read as the
/// laws
/// of mx_image say: with the program's entry, segments and labels.
pub fn program_is_lawful()
    ensures { (source : List ℕ) → length source ≤ 2 ^ 20 → first_fault source ≡ None
        → IsProgram (program_of source) }
{}
