//! A law on the frames of tries.
ghost use Rattle.std.specs.Prelude.{◌≡◌};
ghost use Rattle.mx_words.specs.Need.{need};
ghost use Rattle.mx_trie.specs.Read.{read_maps};
ghost use Rattle.mx_trie.specs.Taken.{taken};

use crate::{LeafForm, Trie};

/// A law: at any moment as many frames of each pool are taken as the maps need.
pub fn frames_are_needed<L: LeafForm>(tables: &Trie<L>)
    ensures { taken tables.now.upper tables.now.leaf tables.now.spill
        ≡ need L.kind (read_maps L.kind tables.now.upper tables.now.leaf tables.now.spill
        tables.now.words tables.now.roots) }
{}
