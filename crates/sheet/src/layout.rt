//! How the file of a sheet is laid out.
ghost use Rattle.std.specs.Prelude.{◌≡◌, ◌≤◌};
ghost use Rattle.sheet.specs.Tables.{most_letters};
ghost use Rattle.sheet.specs.Files.{entry_size};

/// How many bytes the head of a file has: the numbers of states and letters, the shortest length, the edition.
pub(crate) const HEAD: usize = 4;

/// The edition of the files.
pub(crate) const EDITION: u8 = 1;

/// How many bytes stand before the arrows of a state: its marks and its prefix mark.
pub(crate) const BEFORE_ARROWS: usize = 5;

/// How many bytes a state has in a file.
pub(crate) fn entry_size(letters: u8) -> usize
    ensures answer { result ≡ entry_size letters }
{
    BEFORE_ARROWS + letters as usize
}

/// The head of a file: the numbers of states and letters, and the shortest length.
#[derive(Clone, Copy, Debug, PartialEq, Eq)]
pub(crate) struct Head {
    pub states: u8,
    pub letters: u8,
    pub shortest: u8,
    ghost peopled: { 1 ≤ states },
    ghost some: { 1 ≤ letters },
    ghost few: { letters ≤ most_letters },
}
