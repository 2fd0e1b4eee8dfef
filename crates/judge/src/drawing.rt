//! Drawing the sheet of a plan.
ghost use Rattle.std.specs.Prelude.{◌≡◌, ℕ, ◌+◌, ◌<◌, length};
ghost use Rattle.pattern.specs.Fits.{fitting};
ghost use Rattle.exploration.specs.Drawing.{drawing as drawing_machine};
ghost use Rattle.plan.specs.Views.{letters_of, patterns_of};
ghost use Rattle.sheet.specs.Views.{table_of};
ghost use Rattle.judge.specs.Plots.{Complete, BareFor, LeadsFor, PlottedFor, Inside, arrow_to};
ghost use Rattle.judge.specs.Drawings.{Draws, DrawAnswers, DrawnWith, DrawnFor, MadeUnlessMemory};

use crate::machine::{Machine, Node, Wrong, grown, is_nowhere};
use crate::memory::Scratch;
use crate::table::Table;
use crate::{DrawError, DrawRefusal};
use plan::Plan;
use sheet::{Sheet, StateNumber};
use std::alloc::Global;

/// How many words the working memory must have: a group of four for each state that a sheet can have.
pub const DRAW_WORDS: usize = 1020;

/// The machine whose nodes are the states of the sheet: the empty word, and all fits that words have. The state of a node is not used.
#[derive(Clone, Copy)]
struct Drawing<'p> {
    plan: &'p Plan,
}

impl<'p> Machine for Drawing<'p> {
    ghost meaning = { λ m. drawing_machine (fitting (patterns_of m.plan.now)) };

    fn start(&self) -> Node {
        Node {
            state: 0,
            fits: (0, 0),
        }
    }

    fn step(&self, node: Node, letter: u8) -> Result<Option<Node>, Wrong> {
        let fits = grown(self.plan, node.fits, letter);
        if is_nowhere(fits) {
            return Ok(None);
        }
        Ok(Some(Node { state: 0, fits }))
    }
}

/// What a sheet is read off: a table of the drawing machine of a plan.
// Each method asks for `Complete`: it tells at which entry a node stands, so it is no proposition, as a ghost field has to be.
#[derive(Clone, Copy)]
struct Plot<'a, 'p> {
    plan: &'p Plan,
    table: &'a Table<'a>,
}

impl<'a, 'p> Plot<'a, 'p> {
    /// The states of the entries, without arrows.
    fn states(&self, heap: Global) -> Result<Sheet, DrawError>
        requires complete { Complete self.now }
        ensures answer { MadeUnlessMemory (λ sheet. BareFor self.now (table_of sheet)) result }
    {
        // The plan has letters, and there are as few entries as a sheet can have states: memory alone can be wanting.
        let mut sheet = Sheet::single(heap, self.plan.letters(), self.plan.shortest()).map_err(
            |_| DrawError::NoMemory,
        )?;
        for entry in &self.table.used()[1..] {
            let fits = Node::from(*entry).fits;
            sheet
                .push_state(self.plan.marks(fits), self.plan.is_prefix(fits))
                .map_err(|_| DrawError::NoMemory)?;
        }
        Ok(sheet)
    }

    /// The entry that a letter leads to from an entry, if it leads anywhere.
    fn target(&self, row: usize, letter: u8) -> Option<usize>
        requires complete { Complete self.now }
        requires entry { row < self.now.table.now.size }
        requires spelt { letter < letters_of self.now.plan.now }
        ensures answer { LeadsFor self.now row letter (arrow_to result) }
        ensures inside { Inside self.now.table.now.size result }
    {
        match (Drawing { plan: self.plan }).step(self.table.node(row), letter) {
            Ok(Some(node)) => self.table.find(node),
            _ => None,
        }
    }

    /// Sets the arrow of an entry by a letter, if there is one.
    // A row and a letter are the counters of the two loops, whose ranges give their bounds: a type of the two would say no more.
    fn point(&self, sheet: &mut Sheet, row: usize, letter: u8)
        requires complete { Complete self.now }
        requires entry { row < self.now.table.now.size }
        requires spelt { letter < letters_of self.now.plan.now }
        requires plotted { PlottedFor self.now row letter (table_of sheet.old) }
        ensures held { PlottedFor self.now row (letter + 1) (table_of sheet.new) }
    {
        if let Some(entry) = self.target(row, letter) {
            let _ = sheet.set_arrow(row as StateNumber + 1, letter, entry as StateNumber + 1);
        }
    }

    /// Sets all arrows.
    fn arrows(&self, sheet: &mut Sheet)
        requires complete { Complete self.now }
        requires plotted { PlottedFor self.now 0 0 (table_of sheet.old) }
        ensures held { PlottedFor self.now self.now.table.now.size 0 (table_of sheet.new) }
    {
        // Rows and letters are counted, since an arrow is set by the numbers of its states and its letter.
        for row in 0..self.table.size {
            for letter in 0..self.plan.letters() {
                self.point(sheet, row, letter);
            }
        }
    }

    /// The sheet that is read off the table.
    fn read_off(&self, heap: Global) -> Result<Sheet, DrawError>
        requires complete { Complete self.now }
        ensures answer { MadeUnlessMemory (DrawnFor self.now.plan.now) result }
    {
        let mut sheet = self.states(heap)?;
        self.arrows(&mut sheet);
        Ok(sheet)
    }
}

impl<'p> Drawing<'p> {
    /// Draws with a table of as many entries as a sheet can have states.
    fn draw_in(&self, heap: Global, cells: &mut [u64]) -> Result<Sheet, DrawError>
        requires room { length cells.old ≡ 1020 }
        ensures answer { DrawnWith self.now.plan.now result }
    {
        let mut table = Table::over(cells, self.plan.letters());
        // No word is a fault of this machine: it stops only for want of entries.
        table.explore(self).map_err(|_| DrawRefusal::States)?;
        Plot {
            plan: self.plan,
            table: &table,
        }
        .read_off(heap)
    }

    /// Draws over the words of the memory, whatever they hold.
    fn draw_over(&self, heap: Global, cells: &mut [u64]) -> Result<Sheet, DrawError>
        ensures answer { DrawAnswers self.now.plan.now cells.old result }
    {
        if cells.len() < DRAW_WORDS {
            return Err(DrawError::Refused(DrawRefusal::Words));
        }
        self.draw_in(heap, &mut cells[..DRAW_WORDS])
    }
}

/// Draws the sheet of the plan, and leaves the working memory all zeros.
pub fn draw(heap: Global, plan: &Plan, memory: &mut [u64]) -> Result<Sheet, DrawError>
    ensures drawn { Draws plan.now memory.old memory.new result }
{
    let guard = Scratch { words: memory };
    Drawing { plan }.draw_over(heap, guard.words)
}
