//! Records of an event log: four bytes, which are one event.
ghost use Rattle.std.specs.Prelude.{◌≡◌, slice_index};
ghost use Rattle.trace.specs.Cells.{shown};
ghost use Rattle.logs.specs.Records.{record_cell};

use crate::cause::{Cause, EventDamage};
use trace::fault::Fault;

// A day has this many minutes,
const MINUTES: u16 = 1440;

// an event one of this many codes, and a code's levels make four letters of this many levels each.
const CODES: u8 = 8;

const LEVELS_A_LETTER: u8 = 64;

/// The letter of the record of these four bytes, which stands at an offset of the log, or its damage.
#[tactic(auto, unfolding(crate::specs::Records::record_cell))]
pub(crate) fn read_record(bytes: [u8; 4], offset: usize) -> Result<u8, Fault<EventDamage>>
    ensures { result ≡ shown (record_cell offset (slice_index bytes 0) (slice_index bytes 1) (slice_index bytes 2) (slice_index bytes 3)) }
{
    let [high, low, code, level] = bytes;
    if u16::from_be_bytes([high, low]) < MINUTES && code < CODES {
        Ok(4 * code + level / LEVELS_A_LETTER)
    } else {
        Err(Fault::Damaged(EventDamage {
            cause: Cause::Record,
            offset,
        }))
    }
}
