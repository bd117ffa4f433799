//! Vectors of blocks of which all words have one permission.
ghost use Rattle.std.specs.Prelude.{◌≡◌, ◌*◌, ◌<◌, ◌^◌};
ghost use Rattle.mx_words.specs.Rights.{number};
ghost use Rattle.mx_trie.specs.Filled.{flat_vector};

use mx_words::Perm;

/// The vector of a block of which all words have a permission.
pub(crate) fn flat_vector(perm: Perm) -> u32
    ensures value { result ≡ flat_vector (number perm) }
    ensures small { result < 2 ^ 18 }
{
    1 + 4 * 0x5555 * perm.number()
}
