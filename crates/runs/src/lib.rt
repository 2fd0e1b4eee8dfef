//! Drawing, judging and readings from start to end: on examples that were worked out by hand, at the limits, and beside a simple search.
#![tactic(auto)]

#[cfg(test)]
mod comparison;
#[cfg(test)]
mod judgements;
#[cfg(test)]
mod limits;
#[cfg(test)]
mod searches;
