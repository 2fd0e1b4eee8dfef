//! Sign logs: a byte a cell.
ghost use Rattle.std.specs.Prelude.{◌≡◌, ◌<◌, ◌≤◌, length, MatchResult};
ghost use Rattle.trace.specs.Cells.{shown};
ghost use Rattle.logs.specs.SignLogs.{sign, sign_row};
ghost use Rattle.logs.specs.SignLaws.{lawful_signs};
ghost use Rattle.logs.specs.declared.refusal.OpenRefusal.TheVariants.{SignLogTooLong};

use crate::cause::SignDamage;
use crate::refusal::OpenRefusal;
use trace::fault::Fault;
use trace::interface::Trace;

/// A sign log has at most this many bytes.
pub const MOST_BYTES: usize = 65536;

/// A log of 26 letters: the bytes `A` to `Z` are the letters 0 to 25, and any other byte is damage.
#[derive(Clone, Copy, Drop, Debug)]
pub struct SignLog<'a> {
    bytes: &'a [u8],
    // The bytes are not too many.
    ghost short: { length bytes.now ≤ 65536 },
}

impl<'a> SignLog<'a> {
    /// The log of these bytes, if they are not too many.
    pub fn open(bytes: &'a [u8]) -> Result<SignLog<'a>, OpenRefusal>
        ensures { MatchResult result (λ log. (length bytes.now ≤ 65536) × (sign_row log.bytes.now ≡ sign_row bytes.now)) (λ e. (65536 < length bytes.now) × (e ≡ SignLogTooLong)) }
    {
        if bytes.len() > MOST_BYTES {
            return Err(OpenRefusal::SignLogTooLong);
        }
        Ok(SignLog { bytes })
    }
}

// What a byte at an offset says.
fn read_sign(byte: u8, offset: usize) -> Result<u8, Fault<SignDamage>>
    ensures { result ≡ shown (sign offset byte) }
{
    match byte {
        b'A'..=b'Z' => Ok(byte - b'A'),
        _ => Err(Fault::Damaged(SignDamage { offset })),
    }
}

impl<'a> Trace for SignLog<'a> {
    type Damage = SignDamage;

    const LETTER_COUNT: u8 = 26;

    ghost alphabet = { 26 };

    ghost row = { λ s. sign_row s.bytes.now };

    ghost lawful = { λ s. lawful_signs s.bytes.now s.short };

    fn letters(&self) -> u8 {
        Self::LETTER_COUNT
    }

    #[tactic(auto, using(crate::specs::SignLaws::length_signs))]
    fn len(&self) -> usize {
        self.bytes.len()
    }

    #[tactic(auto, using(crate::specs::SignLaws::signs, trace::specs::Rows::rows))]
    fn cell(&self, i: usize) -> Result<u8, Fault<SignDamage>> {
        let byte = self.bytes.get(i).ok_or(Fault::NoSuchCell)?;
        read_sign(*byte, i)
    }
}
