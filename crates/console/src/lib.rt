//! What the programs share: reading a file that may be missing, and the lines that they print, as values whose text is fixed by `specs/`.
//!
//! Rely on this: what a line of this crate shows under `{}` is exactly the text that its definition gives, so a program that prints
//! these lines says what its library calls answered and nothing else.
#![tactic(auto)]

pub mod input;
pub mod listing;
pub mod refused;
