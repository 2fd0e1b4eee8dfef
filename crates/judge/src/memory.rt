//! The guard over the lent working memory, which wipes it at its end.
ghost use Rattle.std.specs.Prelude.{◌≡◌};
ghost use Rattle.judge.specs.Memory.{Wiped};

/// A working memory that is wiped on every way out of the function that holds it.
pub struct Scratch<'a> {
    /// The words that are lent.
    pub words: &'a mut [u64],
}

impl Drop for Scratch<'_> {
    fn drop(self)
        ensures wiped { Wiped self.entry.words.now self.exit.0.now }
    {
        let Scratch { words } = self;
        words.fill(0);
    }
}
