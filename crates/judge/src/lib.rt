//! Judging a sheet for a plan over all words, and drawing the sheet of a plan.
#![tactic(auto)]

mod drawing;
mod explore;
mod judging;
mod machine;
mod memory;
pub mod refusals;
mod spelling;
mod table;

pub use drawing::{DRAW_WORDS, draw};
pub use judging::{WORD_BYTES, judge};
pub use memory::Scratch;
pub use refusals::{DrawError, DrawRefusal, JudgeRefusal};
