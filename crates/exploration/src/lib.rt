//! The exploration of all words in word order, and what it tells of a sheet: definitions and theorems.
//! There is nothing to run: each function stands for a theorem, which its contract names.
#![tactic(auto)]

ghost use Rattle.exploration.specs.Cells.{WalksAreSound};
ghost use Rattle.exploration.specs.Drawing.{DrawingIsRight, DrawnSheetsHold};
ghost use Rattle.exploration.specs.Explore.{Explores};
ghost use Rattle.exploration.specs.Examples.{Judgements};
ghost use Rattle.exploration.specs.Pairs.{VerdictsAreRight};

/// The steps of an exploration that holds its table in a slice.
pub fn walks_are_sound()
    ensures { WalksAreSound }
{}

/// What an exploration of the judging machine says of words, sheet and plan.
pub fn verdicts_are_right()
    ensures { VerdictsAreRight }
{}

/// A plan has one drawn sheet, which is read off an exploration.
pub fn drawing_is_right()
    ensures { DrawingIsRight }
{}

/// The drawn sheet shows no more pairs than it has states.
pub fn drawn_sheets_hold()
    ensures { DrawnSheetsHold }
{}

/// The exploration, as a function, ends with a verdict that is right.
pub fn explores_rightly()
    ensures { Explores }
{}

/// The worked examples.
pub fn judgements_hold()
    ensures { Judgements }
{}
