//! Searches compared with a simple one that was written another way: it tries every stretch of a log against every pattern, cell by cell.
ghost use Rattle.std.specs.Prelude.{◌<◌};

use judge::{DRAW_WORDS, WORD_BYTES, draw};
use logs::sign_log::SignLog;
use plan::Plan;
use reading::{Hit, Reading};
use std::alloc::{AllocError, Global};
use std::test::Fail;

/// Numbers that look like chance, and are the same in each run.
#[derive(Drop)]
struct Dice {
    state: u64,
}

impl Dice {
    /// A number below `sides`.
    fn roll(&mut self, sides: u8) -> u8
        requires { 0 < sides }
        ensures { result < sides }
    {
        let mut x = self.state;
        x ^= x << 13;
        x ^= x >> 7;
        x ^= x << 17;
        self.state = x;
        ((x >> 32) % u64::from(sides)) as u8
    }
}

/// The steps of the patterns, a row each: bits 0 to 2 stand for the letters A, B and C, bit 3 for all others.
type Steps = Vec<Vec<u8>>;

/// One to three patterns of one to four steps.
fn steps(heap: Global, dice: &mut Dice) -> Result<Steps, AllocError> {
    let mut all = Vec::new(heap);
    for _ in 0..dice.roll(3) + 1 {
        let mut one = Vec::new(heap);
        for _ in 0..dice.roll(4) + 1 {
            one.push([1, 1, 2, 2, 4, 3, 5, 6, 15, 14][usize::from(dice.roll(10))])?;
        }
        all.push(one)?;
    }
    Ok(all)
}

/// A step as a plan writes it.
fn written(step: u8) -> &'static [u8] {
    match step {
        1 => b"A",
        2 => b"B",
        4 => b"C",
        3 => b"[AB]",
        5 => b"[CA]",
        6 => b"[BC]",
        14 => b"[^A]",
        _ => b".",
    }
}

/// The text of the plan.
fn text(heap: Global, steps: &Steps) -> Result<Vec<u8>, AllocError> {
    let mut text = Vec::new(heap);
    for pattern in steps {
        for step in pattern {
            text.extend_from_slice(written(*step))?;
        }
        text.push(b'\n')?;
    }
    Ok(text)
}

/// Up to eleven bytes: A, B, C, D, and now and then one that is no sign.
fn log(heap: Global, dice: &mut Dice) -> Result<Vec<u8>, AllocError> {
    let mut bytes = Vec::new(heap);
    for _ in 0..dice.roll(12) {
        bytes.push(b"AAABBBCCD?"[usize::from(dice.roll(10))])?;
    }
    Ok(bytes)
}

/// Whether a step admits a byte.
fn admits(step: u8, byte: u8) -> bool {
    match byte {
        b'A' => step & 1 != 0,
        b'B' => step & 2 != 0,
        b'C' => step & 4 != 0,
        b'D' => step & 8 != 0,
        _ => false,
    }
}

/// Whether a pattern has this stretch of the log as an image.
fn is_image(pattern: &[u8], stretch: &[u8]) -> bool {
    pattern.len() == stretch.len()
        && pattern
            .iter()
            .zip(stretch)
            .all(|(step, byte)| admits(*step, *byte))
}

/// The patterns that have the stretch as an image, a bit each.
fn marks(steps: &Steps, stretch: &[u8]) -> u32 {
    let mut marks = 0;
    let mut bit = 1;
    for pattern in steps {
        if is_image(pattern.as_slice(), stretch) {
            marks |= bit;
        }
        bit = (bit << 1) & 0xff;
    }
    marks
}

/// The hits that end with the last byte of this front of the log, nearest start first.
fn hits_at(hits: &mut Vec<Hit>, steps: &Steps, front: &[u8]) -> Result<(), AllocError> {
    for start in (0..front.len()).rev() {
        let marks = marks(steps, &front[start..]);
        if marks != 0 {
            hits.push(Hit {
                start,
                end: front.len() - 1,
                marks,
            })?;
        }
    }
    Ok(())
}

/// All hits, the simple way.
fn simply(heap: Global, steps: &Steps, bytes: &[u8]) -> Result<Vec<Hit>, AllocError> {
    let mut hits = Vec::new(heap);
    for size in 1..bytes.len() + 1 {
        hits_at(&mut hits, steps, &bytes[..size])?;
    }
    Ok(hits)
}

/// Whether the calls answer these hits and then the end.
fn answers(heap: Global, text: &[u8], bytes: &[u8], hits: &[Hit]) -> Result<bool, Fail> {
    let plan = Plan::read(26, text)?;
    let mut memory: Vec<u64> = vec![in heap; 0; DRAW_WORDS]?;
    let mut word: Vec<u8> = vec![in heap; 0; WORD_BYTES]?;
    let sheet = draw(heap, &plan, memory.as_mut_slice())?;
    let mut reading = Reading::new(heap, SignLog::open(bytes)?)?;
    let admitted = reading.admit(plan, sheet, memory.as_mut_slice(), word.as_mut_slice());
    let mut search = reading.begin();
    let mut same = admitted.is_ok();
    for hit in hits {
        same &= search.next() == Some(*hit);
    }
    Ok(same && search.next() == None && search.report().hits == hits.len())
}

#[test]
fn small_plans_over_small_logs(rt: HostRuntime) -> Result<(), Fail> {
    let heap = rt.alloc();
    let mut dice = Dice {
        state: 88_172_645_463_325_252,
    };
    let mut some = 0u32;
    for _ in 0..2000 {
        let steps = steps(heap, &mut dice)?;
        let bytes = log(heap, &mut dice)?;
        let hits = simply(heap, &steps, bytes.as_slice())?;
        some = some.saturating_add(u32::from(!hits.is_empty()));
        let text = text(heap, &steps)?;
        assert!(rt; answers(heap, text.as_slice(), bytes.as_slice(), hits.as_slice())?);
    }
    // most of them have hits, so the comparison is not of empty lists
    assert!(rt; some > 1000);
    Ok(())
}
