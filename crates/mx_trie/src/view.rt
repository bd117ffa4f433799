//! Maps that are read span by span.
ghost use Rattle.std.specs.Prelude.{◌<◌, List};
ghost use Rattle.mx_words.specs.declared.perm.Perm.{Perm};
ghost use Rattle.mx_table.specs.Tables.{most_words};
ghost use Rattle.mx_trie.specs.Views.{IsRound};

use mx_words::Span;

/// One map of all words below 2^24, of which those outside RAM have no permission.
pub(crate) trait View {
    // What the map is.
    ghost map: { Self → List Perm };

    // When it can be read.
    ghost lawful: { Self → Type 0 };

    /// A span round a word below 2^24, on which the map has one permission. It needn't be the whole run.
    fn around(&self, word: u32) -> Span
        requires lawful { lawful self.now }
        requires word { word < most_words }
        ensures { IsRound (map self.now) word result };

    /// As `around`. It may take longer, and looks for a longer span.
    fn around_far(&self, word: u32) -> Span
        requires lawful { lawful self.now }
        requires word { word < most_words }
        ensures { IsRound (map self.now) word result };
}
