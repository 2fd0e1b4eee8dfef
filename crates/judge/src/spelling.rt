//! The word of an entry is spelt from its links.
ghost use Rattle.judge.specs.Tables.{words_in};
ghost use Rattle.judge.specs.Words.{Spellable, Spelt};

use crate::table::Table;

impl Table<'_> {
    /// Writes the word of an entry, in reading order, to the front of the buffer, and answers its length.
    pub(crate) fn spell(&self, at: usize, word: &mut [u8]) -> usize
        requires { Spellable self.now.letters (words_in self.now) at word.old }
        ensures { Spelt self.now.letters (words_in self.now) at word.old word.new result }
    {
        if at == 0 {
            return 0;
        }
        let [link, ..] = self.entries[at];
        let count = self.letters as u64;
        let size = self.spell((link / count) as usize, word);
        word[size] = (link % count) as u8;
        size + 1
    }
}
