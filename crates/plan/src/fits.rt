//! The fits of a text: the steps from which on its pattern spells it to the end (closing), and those from which on it is
//! spelt with a step left over (inner). Both are found for all steps at once, letter by letter. Wherever fits go they are the
//! pair of these two sets of 64 bits.
ghost use Rattle.std.specs.Prelude.{◌≡◌, ℕ, ◌<◌, ◌≤◌, true, ◌↔◌, List, [], ◌∷◌, length};
ghost use Rattle.pattern.specs.Patterns.{marks_of, shortest as shortest_of, longest as longest_of};
ghost use Rattle.pattern.specs.Images.{FrontOf};
ghost use Rattle.pattern.specs.Fits.{fits_of, fitting, admit_of};
ghost use Rattle.plan.specs.Views.{letters_of, patterns_of, Sound};

use crate::Plan;

impl Plan {
    /// How many letters the alphabet has.
    #[tactic(auto, using(crate::proofs::Soundness::sound))]
    pub fn letters(&self) -> u8
        ensures answer { result ≡ letters_of self.now }
        ensures sound { Sound result (patterns_of self.now) }
    {
        self.alphabet.letters()
    }

    /// How many patterns there are.
    #[tactic(auto, using(crate::proofs::Building::length_plan))]
    pub fn patterns(&self) -> u8
        ensures answer { result ≡ length (patterns_of self.now) }
    {
        self.spans.len() as u8
    }

    /// The length of the shortest pattern, 0 where there is none.
    pub fn shortest(&self) -> u8
        ensures answer { result ≡ shortest_of (patterns_of self.now) }
    {
        self.shortest
    }

    /// The length of the longest pattern, 0 where there is none.
    pub fn longest(&self) -> u8
        ensures answer { result ≡ longest_of (patterns_of self.now) }
    {
        self.longest
    }

    /// The steps that admit the letter: none does if it is not one of the plan's.
    #[tactic(auto, using(crate::proofs::Soundness::none_admits))]
    fn admitting(&self, letter: u8) -> u64
        ensures answer { result ≡ admit_of (patterns_of self.now) letter }
        ensures none { letters_of self.now ≤ letter → result ≡ 0 }
    {
        if letter < self.alphabet.letters() {
            self.admit[letter as usize]
        } else {
            0
        }
    }

    /// The fits of the word that is one letter, closing and inner.
    #[tactic(auto, using(crate::proofs::Fitting::first_word))]
    pub fn first(&self, letter: u8) -> (u64, u64)
        ensures answer { result ≡ (fitting (patterns_of self.now)).first letter }
        ensures word { result ≡ fits_of (patterns_of self.now) (letter ∷ []) }
        ensures none { letters_of self.now ≤ letter → result ≡ (0, 0) }
    {
        let admitting = self.admitting(letter);
        (admitting & self.ends, admitting & !self.ends)
    }

    /// The fits of a text with one letter more before it, from those of the text.
    #[tactic(auto, using(crate::proofs::Fitting::extend_word))]
    pub fn extend(&self, fits: (u64, u64), letter: u8) -> (u64, u64)
        ensures answer { result ≡ (fitting (patterns_of self.now)).extend fits letter }
        ensures word { (t : List ℕ) → 0 < length t → fits ≡ fits_of (patterns_of self.now) t → result ≡ fits_of (patterns_of self.now) (letter ∷ t) }
        ensures none { letters_of self.now ≤ letter → result ≡ (0, 0) }
    {
        let (closing, inner) = fits;
        let admitting = self.admitting(letter);
        (
            ((closing & !self.starts) >> 1) & admitting,
            ((inner & !self.starts) >> 1) & admitting,
        )
    }

    /// The patterns that have a text with these fits as image: bit j stands for pattern j, from 0.
    pub fn marks(&self, fits: (u64, u64)) -> u32
        ensures answer { result ≡ (fitting (patterns_of self.now)).marks fits }
        ensures word { (t : List ℕ) → 0 < length t → fits ≡ fits_of (patterns_of self.now) t → result ≡ marks_of (patterns_of self.now) t }
    {
        let (closing, _) = fits;
        let spans = self.spans.as_slice();
        let mut marks: u32 = 0;
        // By the number of a pattern, so that an edit can take it for the number of the pattern's first step.
        for j in (0..spans.len()).rev() {
            marks = (marks << 1) | ((closing >> spans[j].first) & 1) as u32;
        }
        marks
    }

    /// Whether a text with these fits is a proper prefix of an image.
    #[tactic(auto, using(crate::proofs::Fitting::prefix_word))]
    pub fn is_prefix(&self, fits: (u64, u64)) -> bool
        ensures answer { result ≡ (fitting (patterns_of self.now)).prefix fits }
        ensures word { (t : List ℕ) → 0 < length t → fits ≡ fits_of (patterns_of self.now) t → ((result ≡ true) ↔ FrontOf (marks_of (patterns_of self.now)) t) }
    {
        let (_, inner) = fits;
        inner & self.starts != 0
    }
}
