//! What a hart holds: its status, its pc and its registers.
ghost use Rattle.std.specs.Prelude.{◌≡◌, ℕ, true, [], length, slice_index, IfOk, List};
ghost use Rattle.mx_words.specs.Announced.{is_announced};
ghost use Rattle.mx_machine.specs.declared.views.HartStatus.TheVariants.{Waiting};
ghost use Rattle.mx_snapshot.specs.Fields.{between, status_by};
ghost use Rattle.mx_snapshot.specs.Reader.{list_of, meant, number, such};
ghost use Rattle.mx_snapshot.specs.Rules.{is_pc, is_register};
ghost use Rattle.mx_resume.specs.Taking.{IsTaken};

use crate::SnapshotRefused;
use crate::reading::{between, number, out_of_range};
use mx_machine::HartStatus;
use mx_supervisor::is_announced;

pub(crate) fn status(bytes: &[u8], at: &mut usize) -> Result<HartStatus, SnapshotRefused>
    ensures { IsTaken (λ s. s) (meant status_by (between 0 2) bytes.now at.old) at.new result }
{
    match between(bytes, at, 0, 2)? {
        0 => Ok(HartStatus::Running),
        1 => Ok(HartStatus::Waiting),
        _ => Ok(HartStatus::Halted),
    }
}

/// The address of an instruction.
pub(crate) fn pc(bytes: &[u8], at: &mut usize) -> Result<u32, SnapshotRefused>
    ensures { IsTaken (λ n. n) (such is_pc number bytes.now at.old) at.new result }
{
    let field = *at;
    let pc = number(bytes, at)?;
    if pc % 4 != 0 {
        return Err(out_of_range(field));
    }
    Ok(pc)
}

/// Whether a register of a hart may have a value: register 0 has 0, and register 17 of a hart that waits names an
/// announced call.
fn is_register(status: HartStatus, register: u32, value: u32) -> bool
    ensures { result ≡ is_register status register value }
{
    match register {
        0 => value == 0,
        17 => status != HartStatus::Waiting || is_announced(value),
        _ => true,
    }
}

fn register(
    bytes: &[u8],
    at: &mut usize,
    status: HartStatus,
    register: u32,
) -> Result<u32, SnapshotRefused>
    ensures range { IfOk result (λ value. is_register status register value ≡ true) }
    ensures taken { IsTaken (λ n. n) (such (is_register status register) number bytes.now at.old)
        at.new result }
{
    let field = *at;
    let value = number(bytes, at)?;
    if !is_register(status, register, value) {
        return Err(out_of_range(field));
    }
    Ok(value)
}

/// All registers.
pub(crate) fn registers(
    bytes: &[u8],
    at: &mut usize,
    status: HartStatus,
) -> Result<[u32; 32], SnapshotRefused>
    ensures taken { IsTaken (λ regs. regs)
        (list_of 32 (λ (others : List ℕ). such (is_register status (length others)) number) []
        bytes.now at.old) at.new result }
    ensures call { IfOk result (λ regs. status ≡ Waiting →
        is_announced (slice_index regs 17) ≡ true) }
{
    let mut regs = [0; 32];
    'registers: for i in 0..32_u32 {
        let value = register(bytes, at, status, i)?;
        regs[i as usize] = value;
    }
    Ok(regs)
}
