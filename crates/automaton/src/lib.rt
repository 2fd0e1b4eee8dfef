//! Factor automata that read backwards, wrong words, and why the search with jumps misses nothing: definitions and theorems.
//! There is nothing to run: each function stands for a theorem, which its contract names.
#![tactic(auto)]

ghost use Rattle.automaton.specs.Automata.{LedIsReached};
ghost use Rattle.automaton.specs.Wrong.{WrongByTexts, BareSheetsAreRight};
ghost use Rattle.automaton.specs.Judging.{JudgeIsRight, NoWrongIsRight};
ghost use Rattle.automaton.specs.Tagged.{TaggedSheetsAreRight};
ghost use Rattle.automaton.specs.Search.{SearchIsComplete};
ghost use Rattle.automaton.specs.Examples.{Searches};

/// A text leads where its word does.
pub fn led_is_reached()
    ensures { LedIsReached }
{}

/// A word is wrong exactly if its text is.
pub fn wrong_by_texts()
    ensures { WrongByTexts }
{}

/// A sheet whose state 1 has no arrow has no wrong word for the plan without patterns.
pub fn bare_sheets_are_right()
    ensures { BareSheetsAreRight }
{}

/// The machine over states and fits finds the wrong texts.
pub fn judge_is_right()
    ensures { JudgeIsRight }
{}

/// A sheet with no wrong word is right, and the reverse.
pub fn no_wrong_is_right()
    ensures { NoWrongIsRight }
{}

/// A sheet whose states carry fits is right.
pub fn tagged_sheets_are_right()
    ensures { TaggedSheetsAreRight }
{}

/// The search with a sheet that has no wrong word answers the full list, and how many cells it fetches.
pub fn search_is_complete()
    ensures { SearchIsComplete }
{}

/// The worked examples.
pub fn searches_hold()
    ensures { Searches }
{}
