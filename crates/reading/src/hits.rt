//! What a search answers.
ghost use Rattle.std.specs.Prelude.{Some};
ghost use Rattle.reading.specs.Texts.{hit_text, report_text};

use std::fmt;

/// The cells from `start` to `end`, both counted, are an image of each pattern whose bit is set in `marks`: bit j stands for pattern j, from 0.
#[derive(Clone, Copy, PartialEq, Eq, Debug)]
pub struct Hit {
    pub start: usize,
    pub end: usize,
    pub marks: u32,
}

/// Its first cell, its last cell and its marks.
impl fmt::Display for Hit {
    ghost output = { λ hit. Some (hit_text hit) };

    fn fmt<W: fmt::Write>(&self, f: &mut fmt::Formatter<W>) -> fmt::Result {
        let start = self.start;
        let end = self.end;
        let marks = self.marks;
        write!(f, "{start} {end} {marks}")
    }
}

/// What a search has come to since it was begun.
#[derive(Clone, Copy, PartialEq, Eq, Debug)]
pub struct Report {
    /// How many hits were answered.
    pub hits: usize,
    /// How many cells were fetched for them; one that was fetched again counts again.
    pub fetches: usize,
    /// The damaged cell that was fetched first.
    pub damaged: Option<usize>,
}

/// The end of a search: how many hits were answered, and how many cells were fetched.
impl fmt::Display for Report {
    ghost output = { λ report. Some (report_text report) };

    fn fmt<W: fmt::Write>(&self, f: &mut fmt::Formatter<W>) -> fmt::Result {
        let hits = self.hits;
        let fetches = self.fetches;
        write!(f, "END {hits} {fetches}")
    }
}
