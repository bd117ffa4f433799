//! Numbers in a list of bytes, each little-endian (System V gABI, "Data Representation").

ghost use Rattle.std.specs.Prelude.{◌≡◌, ◌+◌, ◌≤◌, length};
ghost use Rattle.mx_elf.specs.Field.{half_at, word_at};

/// The number of the 2 bytes from place `at` on.
#[tactic(auto, unfolding(crate::specs::Field::half_at, mx_words::specs::Bytes::number_at))]
pub(crate) fn half_at(bytes: &[u8], at: usize) -> u16
    requires { at + 2 ≤ length bytes.now }
    ensures { result ≡ half_at bytes.now at }
{
    u16::from_le_bytes([bytes[at], bytes[at + 1]])
}

/// The number of the 4 bytes from place `at` on.
#[tactic(auto, unfolding(crate::specs::Field::word_at, mx_words::specs::Bytes::number_at))]
pub(crate) fn word_at(bytes: &[u8], at: usize) -> u32
    requires { at + 4 ≤ length bytes.now }
    ensures { result ≡ word_at bytes.now at }
{
    u32::from_le_bytes([bytes[at], bytes[at + 1], bytes[at + 2], bytes[at + 3]])
}
