//! The letters that a plan has, and what the signs of a text are over them.
ghost use Rattle.std.specs.Prelude.{◌≡◌, ◌≤◌, true, false, IfOk, IfErr};
ghost use Rattle.notation.specs.Reading.{between, sign_of, letter_sign, every as every_of};

use notation::{PlanRefusal, Sign};

/// The most letters that an alphabet may have.
const MOST_LETTERS: u8 = 32;

/// The letters are the numbers below this one.
#[derive(Clone, Copy, Debug)]
pub(crate) struct Alphabet {
    letters: u8,
    ghost some: { 1 ≤ letters },
    ghost few: { letters ≤ 32 },
}

impl Alphabet {
    /// The alphabet of so many letters, if there is one.
    pub(crate) fn new(letters: u8) -> Result<Alphabet, PlanRefusal>
        ensures ok { IfOk result (λ alphabet. (between 1 32 letters ≡ true) × (alphabet.letters ≡ letters)) }
        ensures err { IfErr result (λ e. (between 1 32 letters ≡ false) × (e ≡ PlanRefusal.Letters)) }
    {
        if letters == 0 || letters > MOST_LETTERS {
            Err(PlanRefusal::Letters)
        } else {
            Ok(Alphabet { letters })
        }
    }

    /// How many letters there are.
    pub(crate) fn letters(self) -> u8
        ensures { result ≡ self.letters }
    {
        self.letters
    }

    /// The sign of a letter, if there is such a letter.
    fn letter(self, a: u8) -> Sign
        ensures { result ≡ letter_sign self.letters a }
    {
        if a < self.letters {
            Sign::Letter(a)
        } else {
            Sign::Other
        }
    }

    /// What the byte stands for. No other place knows which character is which sign.
    #[tactic(auto, using(std::proofs::lemmas::Bool::Decides::nat_tests), unfolding(notation::specs::Reading::sign_of))]
    pub(crate) fn sign(self, byte: u8) -> Sign
        ensures { result ≡ sign_of self.letters byte }
    {
        match char::from(byte) {
            'A'..='Z' => self.letter(byte - b'A'),
            'a'..='f' => self.letter(byte - b'a' + 26),
            '.' => Sign::Dot,
            '[' => Sign::Open,
            ']' => Sign::Close,
            '^' => Sign::Caret,
            _ => Sign::Other,
        }
    }

    /// The set of all letters.
    pub(crate) fn every(self) -> u32
        ensures { result ≡ every_of self.letters }
    {
        ((1u64 << self.letters) - 1) as u32
    }
}
