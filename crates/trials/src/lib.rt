//! Trials: the library on examples, each worked out by hand or made another way than the library makes it.
#![tactic(auto)]

pub mod blocks;
#[cfg(test)]
mod damage;
#[cfg(test)]
mod event_logs;
#[cfg(test)]
mod layers;
#[cfg(test)]
mod plans;
#[cfg(test)]
mod sheets;
#[cfg(test)]
mod sign_logs;
