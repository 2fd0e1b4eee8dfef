//! The steps of a pattern from text, sign by sign.
ghost use Rattle.std.specs.Prelude.{◌≡◌, ◌==◌, length};
ghost use Rattle.notation.specs.Reading.{set_of, bracket_of, step_of};
ghost use Rattle.plan.specs.Views.{found_set};

use crate::alphabet::Alphabet;
use notation::{LineFault, Sign};

/// A text over an alphabet that is read from its front: the rest of it is left.
// The alphabet lies beside the text so that no method is handed both; that it stays the same is a clause of each.
#[derive(Drop)]
pub(crate) struct Scanner<'a> {
    pub(crate) alphabet: Alphabet,
    pub(crate) rest: &'a [u8],
}

impl<'a> Scanner<'a> {
    /// Whether nothing is left.
    pub(crate) fn is_empty(&self) -> bool
        ensures { result ≡ (length self.now.rest.now == 0) }
    {
        self.rest.is_empty()
    }

    /// The set of the letter signs up to the closing bracket, which is read too.
    fn set(&mut self) -> Result<u32, LineFault>
        ensures same { self.new.alphabet ≡ self.old.alphabet }
        ensures answer { found_set self.new result ≡ set_of self.old.alphabet.letters 0 self.old.rest.now }
    {
        let mut set = 0;
        while let [byte, tail @ ..] = self.rest {
            self.rest = tail;
            match self.alphabet.sign(*byte) {
                Sign::Letter(a) => set |= 1 << a,
                Sign::Close => return if set == 0 {
                    Err(LineFault::BadSet)
                } else {
                    Ok(set)
                },
                _ => return Err(LineFault::BadSet),
            }
        }
        Err(LineFault::BadSet)
    }

    /// The set that is written behind an opening bracket.
    fn bracket(&mut self) -> Result<u32, LineFault>
        ensures same { self.new.alphabet ≡ self.old.alphabet }
        ensures answer { found_set self.new result ≡ bracket_of self.old.alphabet.letters self.old.rest.now }
    {
        let [b'^', inner @ ..] = self.rest else {
            return self.set();
        };
        self.rest = inner;
        let all_but = self.set()?;
        let all = self.alphabet.every();
        if all_but == all {
            Err(LineFault::NoLetter)
        } else {
            Ok(all - all_but)
        }
    }

    /// The set of letters that the step at the front of the text admits.
    pub(crate) fn step(&mut self) -> Result<u32, LineFault>
        ensures same { self.new.alphabet ≡ self.old.alphabet }
        ensures answer { found_set self.new result ≡ step_of self.old.alphabet.letters self.old.rest.now }
    {
        let [first, rest @ ..] = self.rest else {
            return Err(LineFault::BadSign);
        };
        self.rest = rest;
        match self.alphabet.sign(*first) {
            Sign::Letter(a) => Ok(1 << a),
            Sign::Dot => Ok(self.alphabet.every()),
            Sign::Open => self.bracket(),
            _ => Err(LineFault::BadSign),
        }
    }
}
