//! The search itself: `next` reads back from one place after the other, and jumps over cells that it need not read.
ghost use Rattle.std.specs.Prelude.{◌≡◌, ◌+◌, ◌^◌, ◌<◌, List, ◌∷◌, Option};
ghost use Rattle.pattern.specs.Rows.{Hit as Place};
ghost use Rattle.automaton.specs.Search.{following, jumped, stepped};
ghost use Rattle.sheet.specs.Views.{automaton_of};
ghost use Rattle.reading.specs.Cells.{letters_in};
ghost use Rattle.reading.specs.Hits.{placed, count_of};
ghost use Rattle.reading.specs.Spots.{conf_of, looked};
ghost use Rattle.reading.specs.Standing.{Stands, Steps, hit_after};

use crate::hits::Hit;
use crate::spot::Spot;
use crate::states::{Reading, Search};
use sheet::{START, StateNumber};
use trace::interface::Trace;

impl<T: Trace> Reading<T> {
    // Fetches the cell that comes next in reading back, unless the row's front was passed, and the state that it leads to.
    fn follow(&self, at: Spot) -> (Spot, Option<StateNumber>)
        requires { at.fetches + 1 < 2 ^ 64 }
        ensures looked { conf_of result.0 ≡ looked (letters_in (T.Trace.row self.now.trace)) (conf_of at) }
        ensures answer { result.1 ≡ following (automaton_of self.now.sheet) (letters_in (T.Trace.row self.now.trace)) (conf_of at) }
    {
        if at.o > at.p {
            return (at, None);
        }
        let i = at.p - at.o;
        let seen = Spot {
            fetches: at.fetches + 1,
            ..at
        };
        match self.trace.cell(i) {
            Ok(letter) => (seen, self.sheet.follow(at.q, letter)),
            Err(_) => {
                let damaged = seen.damaged.or(Some(i));
                (Spot { damaged, ..seen }, None)
            }
        }
    }

    // One cell more was read, and led to `q`.
    fn step(&self, at: Spot, q: StateNumber) -> Spot
        requires { at.o + 1 < 2 ^ 64 }
        ensures answer { conf_of result ≡ stepped (automaton_of self.now.sheet) (conf_of at) at.fetches at.damaged q }
    {
        let o = at.o + 1;
        let c = if self.sheet.is_prefix(q) { o } else { at.c };
        Spot { o, q, c, ..at }
    }
}

impl Spot {
    // Past the places that the reading back has ruled out.
    fn jump(self, least: u8) -> Spot
        requires { self.p + 256 < 2 ^ 64 }
        ensures answer { conf_of result ≡ jumped least (conf_of self) self.fetches self.damaged }
    {
        let by = (least as usize).saturating_sub(self.c).max(1);
        Spot {
            p: self.p + by,
            o: 0,
            q: START,
            c: 0,
            ..self
        }
    }
}

impl<T: Trace> Search<T> {
    /// The next hit, or none at the end. The following call goes on where this one left.
    pub fn next(&mut self) -> Option<Hit>
        ensures answer { Steps T.Trace.row self.old result self.new }
        ensures counted { self.new.hits ≡ self.old.hits + count_of result }
        ensures kept { self.new.reading ≡ self.old.reading }
        ensures hit { (answers : List (Option Place)) → Stands T.Trace.alphabet T.Trace.row answers self.old → placed result ≡ hit_after T.Trace.row self.old }
        ensures standing { (answers : List (Option Place)) → Stands T.Trace.alphabet T.Trace.row answers self.old → Stands T.Trace.alphabet T.Trace.row (placed result ∷ answers) self.new }
    {
        let least = self.reading.plan.shortest();
        let len = self.reading.trace.len();
        if least == 0 {
            return None;
        }
        let mut at = self.at;
        let mut found = None;
        // How far each loop goes is known only by reading, so neither is a chain: the inner one reads back from a place, the outer one
        // goes from place to place, and a hit leaves both by the label.
        'places: while at.p < len {
            loop {
                let (seen, to) = self.reading.follow(at);
                match to {
                    None => {
                        at = seen.jump(least);
                        break;
                    }
                    Some(q) => {
                        at = self.reading.step(seen, q);
                        let marks = self.reading.sheet.marks(q);
                        if marks != 0 {
                            found = Some(Hit {
                                start: at.p + 1 - at.o,
                                end: at.p,
                                marks,
                            });
                            break 'places;
                        }
                    }
                }
            }
        }
        self.at = at;
        self.hits += usize::from(found.is_some());
        found
    }
}
