//! What the assembler makes of the text of an instruction.
ghost use Rattle.std.specs.Prelude.{◌≡◌, [], ◌∷◌, ◌++◌, codes, None, List, ℕ};
ghost use Rattle.mx_isa.specs.declared.inst.Inst.{Inst};
ghost use Rattle.mx_isa.specs.Ranges.{IsValid};
ghost use Rattle.mx_isa.specs.Table.{encoded};
ghost use Rattle.mx_image.specs.Image.{little_endian};
ghost use Rattle.mx_asm.specs.Denoted.{program_of, first_fault};
ghost use Rattle.mx_trace.specs.Text.{inst_text, text_source};

/// The text of a valid instruction after the line `.text 0x80000000` has no fault, and denotes a program of one
/// segment, whose four
/// bytes are the instruction's word. So `assemble` gives its image, or memory is wanting.
pub fn text_is_assembled()
    ensures faultless { (i : Inst) → IsValid i → first_fault (text_source i) ≡ None }
    ensures word { (i : Inst) → IsValid i → program_of (text_source i) ≡ record {
      entry = 0x80000000;
      segments =
          record { address = 0x80000000; flags = 5; bytes = little_endian 4 (encoded i) } ∷ [];
      labels = [];
    } }
{}
