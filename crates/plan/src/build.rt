//! A plan is made pattern by pattern, with its tables.
ghost use Rattle.std.specs.Prelude.{◌≡◌, ℕ, ◌*◌, ◌%◌, ◌^◌, ◌<◌, ◌≤◌, [], ◌∷◌, length, bit_or, slice_index};
ghost use Rattle.pattern.specs.Fits.{steps_where, admits_first};
ghost use Rattle.plan.specs.Views.{patterns_of, Room, More};

use crate::Plan;
use crate::alphabet::Alphabet;
use crate::copy_vec::CopyVec;
use crate::span::Span;

/// The steps of the pattern that admit the letter.
fn column(pattern: &[u32], letter: usize) -> u64
    requires small { letter < 32 }
    requires short { length pattern.now ≤ 64 }
    ensures { result ≡ steps_where (admits_first letter) (pattern.now ∷ []) }
{
    // `Plan::marks` gathers bits too, over other items: one function for both would take the bit as a closure, and say less plainly what it is.
    pattern.iter().rev().fold(
        0,
        |column, step| (column << 1) | ((*step >> letter) & 1) as u64,
    )
}

/// The table with the pattern's steps too, which are numbered from `from` on. (Letters that the plan does not have are not asked for, so no
/// time goes to them.)
fn columns(mut admit: [u64; 32], alphabet: Alphabet, from: usize, pattern: &[u32]) -> [u64; 32]
    requires low { from < 64 }
    requires short { length pattern.now ≤ 64 }
    ensures { (a : ℕ) → a < alphabet.letters → slice_index result a ≡ bit_or (slice_index admit a) ((steps_where (admits_first a) (pattern.now ∷ []) * 2 ^ from) % 2 ^ 64) }
{
    let letters = usize::from(alphabet.letters());
    for (letter, steps) in admit[..letters].iter_mut().enumerate() {
        *steps |= column(pattern, letter) << from;
    }
    admit
}

impl Plan {
    /// The plan without patterns.
    pub(crate) fn bare(alphabet: Alphabet) -> Plan
        ensures letters { result.alphabet ≡ alphabet }
        ensures none { patterns_of result ≡ [] }
    {
        Plan {
            alphabet,
            steps: CopyVec::new(0),
            spans: CopyVec::new(Span {
                first: 0,
                length: 0,
            }),
            shortest: 0,
            longest: 0,
            admit: [0; 32],
            starts: 0,
            ends: 0,
        }
    }

    /// The plan with one pattern more.
    pub(crate) fn with(&self, pattern: &[u32]) -> Plan
        requires { Room self.now pattern.now }
        ensures { More self.now pattern.now result }
    {
        let from = self.steps.len();
        let size = pattern.len() as u8;
        let mut steps = self.steps;
        steps.extend(pattern);
        let mut spans = self.spans;
        spans.push(Span {
            first: from as u8,
            length: size,
        });
        Plan {
            alphabet: self.alphabet,
            steps,
            spans,
            shortest: if self.spans.is_empty() {
                size
            } else {
                size.min(self.shortest)
            },
            longest: size.max(self.longest),
            admit: columns(self.admit, self.alphabet, from, pattern),
            starts: self.starts | 1 << from,
            ends: self.ends | 1 << (from + pattern.len() - 1),
        }
    }
}
