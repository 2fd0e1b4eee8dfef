//! Sheets into files.
ghost use Rattle.std.specs.Prelude.{◌≡◌, ◌*◌, ◌<◌, ◌≤◌, length, take, IfOk, Ok, vec_len};
ghost use Rattle.std.specs.List.{flat_map};
ghost use Rattle.sheet.specs.Files.{entry_size, entry_bytes, read_file, written, overwritten};
ghost use Rattle.sheet.specs.Views.{table_of, entry_in};

use crate::layout::{BEFORE_ARROWS, EDITION, HEAD, entry_size};
use crate::states::State;
use crate::{Sheet, SheetRefusal};

/// Writes a state over its part of the file, with an arrow for each byte behind its marks.
fn put_state(part: &mut [u8], letters: u8, state: &State)
    requires long { length part.old ≡ entry_size letters }
    requires wide { letters ≤ length state.now.arrows }
    ensures after { part.new ≡ entry_bytes (entry_in letters state.now) }
{
    part[..4].copy_from_slice(&state.marks.to_be_bytes());
    part[4] = u8::from(state.prefix);
    part[BEFORE_ARROWS..].copy_from_slice(&state.arrows[..letters as usize]);
}

impl Sheet {
    /// Writes the states over the whole body of a file.
    fn put_states(&self, body: &mut [u8])
        requires long { length body.old ≡ vec_len self.now.states * entry_size self.now.letters }
        ensures after { body.new ≡ flat_map entry_bytes (table_of self.now).states }
    {
        let size = entry_size(self.letters);
        // Part by part: after `chunks_exact_mut` a proof knows how long the body is, and no longer what it holds.
        for (i, state) in self.states.iter().enumerate() {
            put_state(&mut body[i * size..(i + 1) * size], self.letters, state);
        }
    }

    /// Writes the file of the sheet into the first bytes of the buffer, and answers how many they are.
    pub fn write(&self, buffer: &mut [u8]) -> Result<usize, SheetRefusal>
        ensures answer { result ≡ written (table_of self.now) (length buffer.old) }
        ensures held { buffer.new ≡ overwritten (table_of self.now) buffer.old }
        ensures again { IfOk result (λ n. read_file (take n buffer.new) ≡ Ok (table_of self.now)) }
    {
        let count = self.states.len();
        let long = HEAD + count * entry_size(self.letters);
        if buffer.len() < long {
            return Err(SheetRefusal::Buffer);
        }
        buffer[..HEAD].copy_from_slice(&[count as u8, self.letters, self.shortest, EDITION]);
        self.put_states(&mut buffer[HEAD..long]);
        Ok(long)
    }
}
