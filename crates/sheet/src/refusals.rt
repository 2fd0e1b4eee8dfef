//! Why a sheet is not read, written or made.
ghost use Rattle.std.specs.Prelude.{◌≡◌};
ghost use Rattle.sheet.specs.Refusals.{number_of};
ghost use Rattle.sheet.specs.declared.refusals.GrowthError.TheVariants.{NoMemory as NoRoom};
ghost use Rattle.sheet.specs.declared.refusals.Unmade.TheVariants.{Refused as RefusedFor, NoMemory};

use std::alloc::{AllocError, AllocFailed};

/// The question about a file that was answered by no. Each has its number.
#[derive(Clone, Copy, Debug, PartialEq, Eq)]
pub enum SheetRefusal {
    /// Are there the 4 bytes of the head?
    Head = 11,
    /// Is the edition 1?
    Edition = 12,
    /// Is there a state, and are there 1 to 32 letters?
    Counts = 13,
    /// Is the file as long as its states take?
    Length = 14,
    /// Is every prefix mark 0 or 1, and every arrow at most the number of states?
    Content = 15,
    /// Does the buffer hold the file?
    Buffer = 16,
}

impl SheetRefusal {
    /// The number of the refusal.
    pub fn number(self) -> u8
        ensures answer { result ≡ number_of self }
    {
        // Each enum casts itself: a trait over all refusals would ask for this body in each `impl`.
        self as u8
    }
}

/// Why a value was not made: it was refused, for this reason, or memory was wanting, which says nothing about it.
#[derive(Clone, Copy, Debug, PartialEq, Eq)]
pub enum Unmade<R> {
    /// It was refused.
    Refused(R),
    /// There was not memory enough.
    NoMemory,
}

// By hand: a derived one has no contract, and clauses name what this gives.
impl<R> From<AllocError> for Unmade<R> {
    ghost from_gives = { λ _ r. r ≡ NoMemory };

    fn from(_error: AllocError) -> Unmade<R> {
        Unmade::NoMemory
    }
}

/// Why no sheet was made.
pub type SheetError = Unmade<SheetRefusal>;

// By hand: a derived one has no contract, and clauses name what this gives.
impl From<SheetRefusal> for SheetError {
    ghost from_gives = { λ e r. r ≡ RefusedFor e };

    fn from(refusal: SheetRefusal) -> SheetError {
        SheetError::Refused(refusal)
    }
}

/// Why a sheet does not get one state more.
// A single case that has no number of its own: `GrowthError::Full` says it more plainly than `Unmade` of a type with one value would.
#[derive(Clone, Copy, Debug, PartialEq, Eq)]
pub enum GrowthError {
    /// It has as many states as a sheet can have.
    Full,
    /// There was not memory enough.
    NoMemory,
}

// By hand: a derived one has no contract, and clauses name what this gives.
impl<T: Drop> From<AllocFailed<T>> for GrowthError {
    ghost from_gives = { λ _ r. r ≡ NoRoom };

    fn from(_error: AllocFailed<T>) -> GrowthError {
        GrowthError::NoMemory
    }
}
