//! A line of a plan from text.
ghost use Rattle.std.specs.Prelude.{◌≡◌, ◌≤◌};
ghost use Rattle.notation.specs.Reading.{line_of};
ghost use Rattle.plan.specs.Views.{found_line};

use crate::copy_vec::CopyVec;
use crate::steps::Scanner;
use notation::LineFault;

impl<'a> Scanner<'a> {
    /// The pattern of the line at the front of the text, where so many more steps fit.
    /// A step is read before it is asked whether there is room for it.
    pub(crate) fn line(&mut self, room: usize) -> Result<CopyVec<u32, 64>, LineFault>
        requires { room ≤ 64 }
        ensures same { self.new.alphabet ≡ self.old.alphabet }
        ensures answer { found_line self.new result ≡ line_of self.old.alphabet.letters room self.old.rest.now }
    {
        let mut steps = CopyVec::new(0);
        loop {
            if let [b'\n', after @ ..] = self.rest {
                self.rest = after;
                return if steps.is_empty() {
                    Err(LineFault::EmptyLine)
                } else {
                    Ok(steps)
                };
            }
            let set = self.step()?;
            if steps.len() == room {
                return Err(LineFault::TooManySteps);
            }
            steps.push(set);
        }
    }
}
