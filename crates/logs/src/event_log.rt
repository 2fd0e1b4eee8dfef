//! Event logs: blocks of records, each block judged once, when the log is opened.
ghost use Rattle.std.specs.Prelude.{◌≡◌, ◌+◌, ◌*◌, ◌/◌, ◌<◌, ◌≤◌, length, slice_index_or, MatchResult};
ghost use Rattle.trace.specs.Cells.{shown};
ghost use Rattle.logs.specs.EventLogs.{event_row, cell_in, cell_count, Judged, WellSized};
ghost use Rattle.logs.specs.EventLaws.{lawful_events};
ghost use Rattle.logs.specs.declared.refusal.OpenRefusal.TheVariants.{EventLogLength};

use crate::block::{BLOCK_BYTES, BLOCK_RECORDS, RECORDS_AT, Verdict, cells_of, judge};
use crate::cause::EventDamage;
use crate::record::read_record;
use crate::refusal::OpenRefusal;
use trace::fault::Fault;
use trace::interface::Trace;

/// An event log has at most this many bytes,
pub const MOST_BYTES: usize = 65536;

/// which are this many blocks.
pub const MOST_BLOCKS: usize = 128;

/// A log of 32 letters, four for each code of an event. A block that is not sound shows 126 damaged cells; a sound one shows a cell for
/// each of its records, damaged where minute or code is out of range.
#[derive(Clone, Copy, Drop, Debug)]
pub struct EventLog<'a> {
    bytes: &'a [u8],
    // What was found of each block of the bytes; past the last block it says nothing. An array, so that opening cannot fail for want of memory.
    verdicts: [Verdict; MOST_BLOCKS],
    cells: usize,
    // The bytes are whole blocks, and not too many; each block was judged; and the cells of all were counted.
    ghost sized: { WellSized bytes.now },
    ghost judged: { Judged bytes.now verdicts (length bytes.now / 512) },
    ghost counted: { cells ≡ cell_count (length bytes.now / 512) verdicts },
}

// How many cells all blocks show, if this was found of them: each but the last gives 126.
fn count_cells(verdicts: &[Verdict]) -> usize
    requires { length verdicts.now ≤ 128 }
    ensures { result ≡ cell_count (length verdicts.now) verdicts.now }
{
    match verdicts.split_last() {
        None => 0,
        Some((last, before)) => BLOCK_RECORDS * before.len() + cells_of(*last),
    }
}

impl<'a> EventLog<'a> {
    /// The log of these bytes, if they can be one. Each block is judged here, once.
    pub fn open(bytes: &'a [u8]) -> Result<EventLog<'a>, OpenRefusal>
        ensures { MatchResult result (λ log. WellSized bytes.now × (event_row log.bytes.now ≡ event_row bytes.now)) (λ e. (WellSized bytes.now → ⊥) × (e ≡ EventLogLength)) }
    {
        let (blocks, rest) = bytes.as_chunks::<BLOCK_BYTES>();
        if !rest.is_empty() || bytes.len() > MOST_BYTES {
            return Err(OpenRefusal::EventLogLength);
        }
        let mut verdicts = [Ok(0); MOST_BLOCKS];
        for (place, block) in blocks.iter().enumerate() {
            verdicts[place] = judge(place, place + 1 == blocks.len(), block);
        }
        let cells = count_cells(&verdicts[..blocks.len()]);
        Ok(EventLog {
            bytes,
            verdicts,
            cells,
        })
    }
}

impl EventLog<'_> {
    // Cell `n` of a block.
    #[tactic(auto, using(crate::proofs::EventLogs::record_of_chunk), unfolding(crate::specs::EventLogs::cell_in))]
    fn cell_in(&self, block: usize, n: usize) -> Result<u8, Fault<EventDamage>>
        requires block { block < length self.now.bytes.now / 512 }
        requires cell { n < 126 }
        ensures { result ≡ shown (cell_in block n (slice_index_or self.now.verdicts block (Ok 0)) self.now.bytes.now) }
    {
        let offset = BLOCK_BYTES * block;
        let _ = self.verdicts[block].map_err(|cause| Fault::Damaged(EventDamage {
            cause,
            offset,
        }))?;
        let at = offset + RECORDS_AT + 4 * n;
        let (words, _) = self.bytes.as_chunks::<4>();
        read_record(words[at / 4], at)
    }
}

impl<'a> Trace for EventLog<'a> {
    type Damage = EventDamage;

    const LETTER_COUNT: u8 = 32;

    ghost alphabet = { 32 };

    ghost row = { λ s. event_row s.bytes.now };

    ghost lawful = { λ s. lawful_events s.bytes.now s.verdicts s.cells s.sized s.judged s.counted };

    fn letters(&self) -> u8 {
        Self::LETTER_COUNT
    }

    #[tactic(auto, using(crate::specs::EventLaws::length_events))]
    fn len(&self) -> usize {
        self.cells
    }

    #[tactic(auto, using(crate::specs::EventLaws::length_events, crate::specs::EventLaws::cells_within, trace::specs::Rows::cell_past))]
    fn cell(&self, i: usize) -> Result<u8, Fault<EventDamage>> {
        if i >= self.cells {
            return Err(Fault::NoSuchCell);
        }
        self.cell_in(i / BLOCK_RECORDS, i % BLOCK_RECORDS)
    }
}
