//! The table of an exploration in the working memory. An entry is a group of four words: its link, its state, and its closing
//! and inner fits. The link of an entry is the number of the entry that it was found from, times the number of letters, plus
//! the letter.
ghost use Rattle.std.specs.Prelude.{◌≡◌, ℕ, ◌+◌, ◌*◌, ◌^◌, ◌<◌, ◌≤◌, length, take};
ghost use Rattle.exploration.specs.Links.{node_at, written};
ghost use Rattle.judge.specs.Memory.{groups_in};
ghost use Rattle.judge.specs.Moves.{node_of};

use crate::machine::Node;

/// How many words an entry takes.
pub(crate) const GROUP: usize = 4;

/// The entries of which the first `size` are in use, for words of so many letters.
// They lie in the lent working memory, so their number stands beside them.
#[derive(Drop)]
pub(crate) struct Table<'a> {
    pub(crate) entries: &'a mut [[u64; GROUP]],
    pub(crate) letters: u8,
    pub(crate) size: usize,
    ghost room: { size ≤ length entries.now },
}

// The node of an entry.
impl From<[u64; GROUP]> for Node {
    ghost use Rattle.judge.specs.Tables.{node_in};

    ghost from_gives = { λ entry node. node_of node ≡ node_in entry };

    fn from(entry: [u64; GROUP]) -> Node {
        let [_, state, closing, inner] = entry;
        Node {
            state,
            fits: (closing, inner),
        }
    }
}

impl<'a> Table<'a> {
    ghost use Rattle.judge.specs.Tables.{words_in, Same, Finds};

    /// The table over the whole groups of the words; none is in use.
    pub(crate) fn over(cells: &'a mut [u64], letters: u8) -> Table<'a>
        ensures groups { length result.entries.now ≡ groups_in cells.old }
        ensures letters { result.letters ≡ letters }
        ensures empty { result.size ≡ 0 }
    {
        let (entries, _) = cells.as_chunks_mut();
        Table {
            entries,
            letters,
            size: 0,
        }
    }

    /// The entries in use.
    pub(crate) fn used(&self) -> &[[u64; GROUP]]
        ensures answer { result.now ≡ take self.now.size self.now.entries.now }
    {
        &self.entries[..self.size]
    }

    /// The node of an entry.
    pub(crate) fn node(&self, row: usize) -> Node
        requires entry { row < length self.now.entries.now }
        ensures answer { node_of result ≡ node_at (words_in self.now) row }
    {
        Node::from(self.entries[row])
    }

    /// The entry that has the node, if there is one.
    pub(crate) fn find(&self, node: Node) -> Option<usize>
        ensures answer { Finds (words_in self.now) self.now.size (node_of node) result }
    {
        self.used()
            .iter()
            .position(|entry| Node::from(*entry) == node)
    }

    /// Adds an entry of the node, found from the entry `parent` by the letter.
    pub(crate) fn push(&mut self, parent: usize, letter: u8, node: Node)
        requires room { self.old.size < length self.old.entries.now }
        requires link { parent * self.old.letters + letter < 2 ^ 64 }
        ensures held { words_in self.new ≡ written self.old.letters (words_in self.old) self.old.size parent letter (node_of node) }
        ensures size { self.new.size ≡ self.old.size + 1 }
        ensures same { Same self.old self.new }
    {
        let link = parent as u64 * self.letters as u64 + letter as u64;
        self.entries[self.size] = [link, node.state, node.fits.0, node.fits.1];
        self.size += 1;
    }
}
