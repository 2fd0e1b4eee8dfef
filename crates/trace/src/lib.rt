//! What a log means: a row of cells, each a letter or damage, read cell by cell through one interface.
//!
//! Rely on this: whatever stands behind [`interface::Trace`], a kind of log or any pile of layers over one, its three calls answer what
//! its row says, for every number of a cell, and reading changes nothing. Code that is generic over `Trace` is proved once, against the row.
#![tactic(auto)]

pub mod fault;
pub mod interface;
pub mod join;
pub mod lent;
pub mod reversal;
pub mod signs;
pub mod tally;
pub mod window;
