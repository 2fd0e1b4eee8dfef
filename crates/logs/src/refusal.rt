//! Why bytes are not opened as a log.
ghost use Rattle.std.specs.Prelude.{◌≡◌};
ghost use Rattle.logs.specs.Refusals.{refusal_number};

/// The question that the bytes turned down.
#[derive(Clone, Copy, Drop, PartialEq, Eq, Debug)]
pub enum OpenRefusal {
    /// A sign log has at most 65,536 bytes.
    SignLogTooLong = 41,
    /// The length of an event log is a multiple of 512, at most 65,536.
    EventLogLength = 42,
}

impl OpenRefusal {
    /// The number by which people know the refusal.
    pub fn number(self) -> u8
        ensures { result ≡ refusal_number self }
    {
        // Each enum casts itself: a trait over all refusals would ask for this body in each `impl`.
        self as u8
    }
}
