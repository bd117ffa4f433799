//! The two machines of a comparison; a command with one machine boots the first.

ghost use Rattle.std.specs.Prelude.{◌≡◌};
ghost use Rattle.mx_boot.specs.Boot.{Faulty, TooFull};
ghost use Rattle.mx_commands.specs.Boots.{refused_by, manifest_role, image_role, input_role};

use crate::status::{FileRole, Status};
use mx_manifest::BootFault;
use mx_words::Need;

/// Which of two machines a boot is of.
#[derive(Clone, Copy, PartialEq, Eq)]
pub enum Side {
    /// The first, or the only one.
    First,
    /// The second.
    Second,
}

/// What a side's manifest is read for.
pub(crate) fn manifest_role(side: Side) -> FileRole
    ensures { result ≡ manifest_role side }
{
    match side {
        Side::First => FileRole::Manifest,
        Side::Second => FileRole::SecondManifest,
    }
}

/// What the image of a side's module with this number is read for.
pub(crate) fn image_role(side: Side, number: u32) -> FileRole
    ensures { result ≡ image_role side number }
{
    match side {
        Side::First => FileRole::Image(number),
        Side::Second => FileRole::SecondImage(number),
    }
}

/// What the input of a side's module with this number is read for.
pub(crate) fn input_role(side: Side, number: u32) -> FileRole
    ensures { result ≡ input_role side number }
{
    match side {
        Side::First => FileRole::Input(number),
        Side::Second => FileRole::SecondInput(number),
    }
}

/// The status of a fault of a side's boot.
pub(crate) fn refused(side: Side, fault: BootFault) -> Status
    ensures { result ≡ refused_by side (Faulty fault) }
{
    match side {
        Side::First => Status::Refused(fault),
        Side::Second => Status::SecondRefused(fault),
    }
}

/// The status of a side's tables that need more than the limit.
pub(crate) fn tables_full(side: Side, need: Need, limit: Need) -> Status
    ensures { result ≡ refused_by side (TooFull need limit) }
{
    match side {
        Side::First => Status::TablesFull { need, limit },
        Side::Second => Status::SecondTablesFull { need, limit },
    }
}
