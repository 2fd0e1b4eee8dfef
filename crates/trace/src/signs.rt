//! The signs that people write for letters.
ghost use Rattle.std.specs.Prelude.{◌≡◌};
ghost use Rattle.trace.specs.Signs.{sign_of};

/// The sign of a letter: `A` to `Z` for 0 to 25, `a` to `f` for 26 to 31, and none past that.
pub fn sign_of(letter: u8) -> Option<char>
    ensures { result ≡ sign_of letter }
{
    match letter {
        0..=25 => Some(char::from(b'A' + letter)),
        26..=31 => Some(char::from(b'a' + (letter - 26))),
        _ => None,
    }
}
