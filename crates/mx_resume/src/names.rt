//! The names of modules.
ghost use Rattle.std.specs.Prelude.{◌≡◌, ℕ, true, map, List, IfOk, IfErr};
ghost use Rattle.std.specs.Bool.{OnTrue};
ghost use Rattle.std.specs.List.{list_all, list_any};
ghost use Rattle.std.specs.Str.{bytes_eq};
ghost use Rattle.mx_manifest.specs.Forms.{is_name_byte};
ghost use Rattle.mx_snapshot.specs.Reader.{piece, such};
ghost use Rattle.mx_snapshot.specs.Rules.{is_new_name};
ghost use Rattle.mx_snapshot.specs.Stored.{StoredModule};
ghost use Rattle.mx_resume.specs.declared.refused.SnapshotRefused.TheVariants.{NoMemory};
ghost use Rattle.mx_resume.specs.Taking.{IsTaken};

use crate::SnapshotRefused;
use crate::reading::{out_of_range, piece};
use mx_manifest::Text;
use std::alloc::Global;
use std::str::from_utf8;

fn is_name_byte(byte: u8) -> bool
    ensures { result ≡ is_name_byte byte }
{
    byte.is_ascii_lowercase() || byte.is_ascii_digit() || byte == b'_'
}

/// Whether a name has the bytes of names alone.
fn is_name(name: &[u8]) -> bool
    ensures { result ≡ list_all is_name_byte name.now }
{
    name.iter().all(|byte| is_name_byte(*byte))
}

/// Whether a name is among these.
fn is_known(names: &[Text], name: &[u8]) -> bool
    ensures { result ≡ list_any (λ (n : List ℕ). bytes_eq n name.now) names.now }
{
    names.iter().any(|known| known.as_str().as_bytes() == name)
}

/// Whether a name is one of names' bytes that none of these names is.
#[tactic(auto, using(crate::proofs::Places::known_named))]
fn is_new(names: &[Text], name: &[u8]) -> bool
    ensures new { (before : List StoredModule) →
        names.now ≡ map (λ (m : StoredModule). m.name) before →
        result ≡ is_new_name before name.now }
    ensures text { OnTrue result (list_all is_name_byte name.now ≡ true) }
{
    is_name(name) && !is_known(names, name)
}

/// The text of a name.
pub(crate) fn text(alloc: Global, name: &[u8]) -> Result<Text, SnapshotRefused>
    requires { list_all is_name_byte name.now ≡ true }
    ensures text { IfOk result (λ text. text ≡ name.now) }
    ensures memory { IfErr result (λ refused. refused ≡ NoMemory) }
{
    let Ok(text) = from_utf8(name) else {
        unreachable!()
    };
    match Text::new(alloc, text) {
        Ok(text) => Ok(text),
        Err(_) => Err(SnapshotRefused::NoMemory),
    }
}

/// A name of so many bytes, which none of these names is.
pub(crate) fn new_name<'a>(
    bytes: &'a [u8],
    at: &mut usize,
    size: u32,
    names: &[Text],
) -> Result<&'a [u8], SnapshotRefused>
    ensures taken { (before : List StoredModule) →
        names.now ≡ map (λ (m : StoredModule). m.name) before →
        IsTaken (λ p. p.now) (such (is_new_name before) (piece size) bytes.now at.old)
        at.new result }
    ensures text { IfOk result (λ p. list_all is_name_byte p.now ≡ true) }
{
    let field = *at;
    let name = piece(bytes, at, size as usize)?;
    if !is_new(names, name) {
        return Err(out_of_range(field));
    }
    Ok(name)
}
