//! Sheets from files.
ghost use Rattle.std.specs.Prelude.{◌≡◌, ℕ, ◌*◌, ◌<◌, ◌≤◌, true, map, length, IfOk, Err, MatchResult, slice_index};
ghost use Rattle.sheet.specs.Tables.{most_letters};
ghost use Rattle.sheet.specs.States.{Each, Good};
ghost use Rattle.sheet.specs.Heads.{Begins, Accepts};
ghost use Rattle.sheet.specs.Files.{entry_size, cut, up_to, sound_entry, sound as sound_parts, entry_of, read_file, file_of, ReadingInvertsWriting};
ghost use Rattle.sheet.specs.Views.{table_of, entry_in, Gives};

use crate::layout::{BEFORE_ARROWS, EDITION, Head, entry_size};
use crate::states::{ArrowNumber, State};
use crate::{MOST_LETTERS, Sheet, SheetError, SheetRefusal};
use std::alloc::{AllocError, Global};

/// Whether no byte is above the bound.
fn up_to(most: u8, bytes: &[u8]) -> bool
    ensures answer { result ≡ up_to most bytes.now }
{
    bytes.iter().all(|b| *b <= most)
}

/// The arrows of a state, and none by the letters that there are not.
fn arrows_of(bytes: &[u8]) -> [ArrowNumber; MOST_LETTERS]
    requires { length bytes.now ≤ most_letters }
    ensures wide { length result ≡ most_letters }
    ensures answer { (a : ℕ) → a < length bytes.now → slice_index result a ≡ slice_index bytes.now a }
    ensures bare { (a : ℕ) → length bytes.now ≤ a → slice_index result a ≡ 0 }
{
    let mut arrows = [0; MOST_LETTERS];
    // By number: after `iter_mut` under `zip` a proof knows how many arrows there are, and no longer which.
    for (a, byte) in bytes.iter().enumerate() {
        arrows[a] = *byte;
    }
    arrows
}

impl Head {
    /// The head of the file and what stands behind it, or the first question about the head that is answered by no.
    fn of(bytes: &[u8]) -> Result<(Head, &[u8]), SheetRefusal>
        ensures answer { MatchResult result (λ x. Begins bytes.now x.0 x.1.now) (λ e. read_file bytes.now ≡ Err e) }
    {
        let [states, letters, shortest, edition, body @ ..] = bytes else {
            return Err(SheetRefusal::Head);
        };
        if *edition != EDITION {
            return Err(SheetRefusal::Edition);
        }
        if *states == 0 || *letters == 0 || *letters as usize > MOST_LETTERS {
            return Err(SheetRefusal::Counts);
        }
        let head = Head {
            states: *states,
            letters: *letters,
            shortest: *shortest,
        };
        Ok((head, body))
    }

    /// Whether a state's prefix mark is 0 or 1, and no arrow is past the last state.
    fn is_sound(self, part: &[u8]) -> bool
        requires { 5 ≤ length part.now }
        ensures answer { result ≡ sound_entry self.states part.now }
    {
        part[4] <= 1 && up_to(self.states, &part[BEFORE_ARROWS..])
    }

    /// Whether all states of the body are sound. (Its length is asked of the caller, who has just measured it; a type for that would live
    /// between two calls.)
    fn are_sound(self, body: &[u8]) -> bool
        requires { length body.now ≡ self.states * entry_size self.letters }
        ensures answer { result ≡ sound_parts self.states (cut (entry_size self.letters) self.states body.now) }
    {
        body.chunks_exact(entry_size(self.letters))
            .all(|part| self.is_sound(part))
    }

    /// The state that a sound part of the file writes.
    fn state_of(self, part: &[u8]) -> State
        requires long { length part.now ≡ entry_size self.letters }
        requires good { sound_entry self.states part.now ≡ true }
        ensures answer { entry_in self.letters result ≡ entry_of part.now }
        ensures good { Good self.letters self.states result }
    {
        // The bytes of the format by their places: an array pattern would need an arm for a part that is too short.
        let (front, arrows) = part.split_at(BEFORE_ARROWS);
        State {
            marks: u32::from_be_bytes([front[0], front[1], front[2], front[3]]),
            prefix: front[4] == 1,
            arrows: arrows_of(arrows),
        }
    }

    /// The states that a sound body writes.
    fn states_of(self, heap: Global, body: &[u8]) -> Result<Vec<State>, AllocError>
        requires long { length body.now ≡ self.states * entry_size self.letters }
        requires good { sound_parts self.states (cut (entry_size self.letters) self.states body.now) ≡ true }
        ensures answer { IfOk result (λ v. map (entry_in self.letters) v.items ≡ map entry_of (cut (entry_size self.letters) self.states body.now)) }
        ensures good { IfOk result (λ v. Each (Good self.letters self.states) v.items) }
    {
        let mut all = Vec::with_capacity(heap, self.states as usize)?;
        for part in body.chunks_exact(entry_size(self.letters)) {
            all.push_reserved(self.state_of(part));
        }
        Ok(all)
    }
}

/// The head and the body of a file about which all questions are answered by yes.
fn parts_of(bytes: &[u8]) -> Result<(Head, &[u8]), SheetRefusal>
    ensures answer { MatchResult result (λ x. Accepts bytes.now x.0 x.1.now) (λ e. read_file bytes.now ≡ Err e) }
{
    let (head, body) = Head::of(bytes)?;
    if body.len() != head.states as usize * entry_size(head.letters) {
        return Err(SheetRefusal::Length);
    }
    if !head.are_sound(body) {
        return Err(SheetRefusal::Content);
    }
    Ok((head, body))
}

impl Sheet {
    /// The sheet that the file writes.
    pub fn read(heap: Global, bytes: &[u8]) -> Result<Sheet, SheetError>
        ensures answer { Gives (read_file bytes.now) result }
        ensures file { IfOk result (λ sheet. bytes.now ≡ file_of (table_of sheet)) }
    {
        let (head, body) = parts_of(bytes)?;
        let states = head.states_of(heap, body)?;
        Ok(Sheet {
            letters: head.letters,
            shortest: head.shortest,
            states,
        })
    }
}

/// Reading a file and writing a table are inverse.
pub fn reading_inverts_writing()
    ensures { ReadingInvertsWriting }
{}
