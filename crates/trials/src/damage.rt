//! What damaged cells answer, for trials.
use logs::cause::{Cause, EventDamage};
use trace::fault::Fault;

pub(crate) fn damaged<D>(damage: D) -> Result<u8, Fault<D>> {
    Err(Fault::Damaged(damage))
}

pub(crate) fn event(cause: Cause, offset: usize) -> EventDamage {
    EventDamage { cause, offset }
}
