//! Where a pattern lies in a plan.
ghost use Rattle.std.specs.Prelude.{◌<◌};

/// So many of the plan's steps, from the first one on.
#[derive(Clone, Copy, Debug)]
pub(crate) struct Span {
    pub(crate) first: u8,
    /// Only definitions ask for it: it says where the pattern ends.
    pub(crate) length: u8,
    ghost low: { first < 64 },
}
