//! Blocks of an event log: their check, and what is found of one.
ghost use Rattle.std.specs.Prelude.{◌≡◌, ◌<◌};
ghost use Rattle.logs.specs.Blocks.{check_of, well_headed, verdict_of};
ghost use Rattle.logs.specs.EventLogs.{cells_of};

use crate::cause::Cause;

/// A block has this many bytes,
pub(crate) const BLOCK_BYTES: usize = 512;

/// and room for this many records.
pub(crate) const BLOCK_RECORDS: usize = 126;

/// Its records begin here,
pub(crate) const RECORDS_AT: usize = 4;

// and its check stands behind so many words of 32 bits.
const CHECKED_WORDS: usize = 127;

/// The bytes of a block.
pub(crate) type Block = [u8; BLOCK_BYTES];

/// What is found of a block: it is sound and has so many records, or all of it is damaged.
pub type Verdict = Result<u8, Cause>;

// How many cells a block shows, if this was found of it.
pub(crate) fn cells_of(verdict: Verdict) -> usize
    ensures answer { result ≡ cells_of verdict }
    ensures bound { result < 256 }
{
    verdict.map_or(BLOCK_RECORDS, usize::from)
}

// What the check of a block has to be.
#[tactic(auto, using(crate::proofs::Blocks::check_none, crate::proofs::Blocks::check_whole))]
fn check_of(block: &Block) -> u32
    ensures { result ≡ check_of block.now }
{
    let (words, _) = block.as_chunks::<4>();
    let mut sum: u32 = 1;
    for (w, word) in words[..CHECKED_WORDS].iter().enumerate() {
        let weight = 2 * w as u32 + 1;
        sum = sum.wrapping_add(u32::from_be_bytes(*word).wrapping_mul(weight));
    }
    sum
}

// Whether the fourth byte is zero and the count is one that the block may have: only the last block of a log may be short.
fn well_headed(last: bool, block: &Block) -> bool
    ensures { result ≡ well_headed last block.now }
{
    let count = usize::from(block[2]);
    block[3] == 0 && (count == BLOCK_RECORDS || (last && count <= BLOCK_RECORDS))
}

/// What is found of a block that ought to have this number, and is the log's last one or not.
#[tactic(auto, unfolding(crate::specs::Blocks::verdict_of))]
pub(crate) fn judge(number: usize, last: bool, block: &Block) -> Verdict
    ensures { result ≡ verdict_of number last block.now }
{
    let [high, low, count, _, .., a, b, c, d] = *block;
    if u32::from_be_bytes([a, b, c, d]) != check_of(block) {
        return Err(Cause::Check);
    }
    if usize::from(u16::from_be_bytes([high, low])) != number {
        return Err(Cause::Number);
    }
    if well_headed(last, block) {
        Ok(count)
    } else {
        Err(Cause::Header)
    }
}
