//! Admission: a reading takes a plan and a sheet for it, if the sheet has no wrong word.
ghost use Rattle.judge.specs.Memory.{Wiped};
ghost use Rattle.reading.specs.Admission.{Admitted, Replaced};

use crate::refusals::AdmitRefusal;
use crate::states::Reading;
use judge::{Scratch, judge};
use plan::Plan;
use sheet::Sheet;
use trace::interface::Trace;

impl<T: Trace> Reading<T> {
    /// Puts the plan and the sheet in place of those that the reading holds, if the sheet has no wrong word for the plan and the
    /// memory suffices to tell; a refused sheet is used up. The memory is left all zeros.
    // The memory and the word's buffer are lent, so that admitting allocates nothing.
    pub fn admit(
        &mut self,
        plan: Plan,
        sheet: Sheet,
        memory: &mut [u64],
        word: &mut [u8],
    ) -> Result<(), AdmitRefusal>
        ensures answer { Admitted T.Trace.alphabet plan sheet memory.old word.old word.new result }
        ensures wiped { Wiped memory.old memory.new }
        ensures held { Replaced plan sheet self.old self.new result }
    {
        if plan.letters() != self.trace.letters() {
            let _guard = Scratch { words: memory };
            return Err(AdmitRefusal::Alphabet);
        }
        judge(&plan, &sheet, memory, word)?;
        self.plan = plan;
        self.sheet = sheet;
        Ok(())
    }
}
