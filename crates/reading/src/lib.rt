//! Readings of a trace: a reading holds a plan and a sheet that has no wrong word for it, and is searched hit by hit.
//!
//! [`Reading`] is idle, [`Search`] is begun: `begin` and `close` turn one into the other, so that a hit cannot be asked for before a
//! begin or after a close.
#![tactic(auto)]

mod calls;
pub mod cell_fault;
mod driver;
pub mod hits;
pub mod refusals;
mod sessions;
mod spot;
mod states;

pub use calls::{Answer, Call};
pub use cell_fault::CellFault;
pub use driver::{perform, resume};
pub use hits::{Hit, Report};
pub use refusals::AdmitRefusal;
pub use sessions::Session;
pub use states::{Reading, Search};
