//! A law on the frames of segment tables.
ghost use Rattle.std.specs.Prelude.{◌≡◌, is_some, count_by};
ghost use Rattle.mx_words.specs.declared.tables.Kind.TheVariants as K;
ghost use Rattle.mx_words.specs.Need.{need};
ghost use Rattle.mx_segments.specs.Kept.{maps_in};

use crate::Segments;

/// A law: at any moment as many frames of the pool are taken as the maps need.
pub fn frames_are_needed(tables: &Segments)
    ensures { count_by is_some tables.now.leaf
        ≡ (need K.Segments (maps_in tables.now.words tables.now.leaf tables.now.chains.lists)).leaf }
{}
