//! Letters, steps, patterns and their images, the hits of a row, fits of texts, words and their order: definitions and theorems.
//! There is nothing to run: each function stands for a theorem, which its contract names.
#![tactic(auto)]

ghost use Rattle.pattern.specs.Rows.{FullListHolds};
ghost use Rattle.pattern.specs.Laws.{PlansAreLawful};
ghost use Rattle.pattern.specs.Words.{WordOrder};
ghost use Rattle.pattern.specs.Examples.{Examples};

/// The full list has exactly the hits of the row, each once, in order.
pub fn full_list_holds()
    ensures { FullListHolds }
{}

/// What is known of a plan's images and fits.
pub fn plans_are_lawful()
    ensures { PlansAreLawful }
{}

/// Word order is a strict total order, and that of the texts.
pub fn words_are_ordered()
    ensures { WordOrder }
{}

/// The worked examples.
pub fn examples_hold()
    ensures { Examples }
{}
