//! Values that are the same.
ghost use Rattle.std.specs.Prelude.{◌≡◌, nat_eq};
ghost use Rattle.std.specs.Cmp.Lexicographic.{pointwise};
ghost use Rattle.mx_twin.specs.Told.{same_told};

use mx_machine::HartStatus;

/// Whether two harts stand alike.
pub(crate) fn same_status(x: HartStatus, y: HartStatus) -> bool
    ensures { result ≡ same_told x y }
{
    match x {
        HartStatus::Running => matches!(y, HartStatus::Running),
        HartStatus::Waiting => matches!(y, HartStatus::Waiting),
        HartStatus::Halted => matches!(y, HartStatus::Halted),
    }
}

/// Whether two harts have the same registers.
pub(crate) fn same_regs(x: &[u32; 32], y: &[u32; 32]) -> bool
    ensures { result ≡ pointwise nat_eq x.now y.now }
{
    x == y
}

/// Whether two slices hold the same bytes.
pub(crate) fn same_slices(left: &[u8], right: &[u8]) -> bool
    ensures { result ≡ pointwise nat_eq left.now right.now }
{
    left == right
}
