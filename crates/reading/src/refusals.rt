//! Why a plan and a sheet are not admitted.
ghost use Rattle.std.specs.Prelude.{◌≡◌};
ghost use Rattle.reading.specs.Admission.{number_of};
ghost use Rattle.reading.specs.declared.refusals.AdmitRefusal.TheVariants.{Sheet as AboutSheet};

use judge::JudgeRefusal;

/// The question about a plan and a sheet that was answered by no.
#[derive(Clone, Copy, Debug, PartialEq, Eq)]
pub enum AdmitRefusal {
    /// Has the plan the trace's letters?
    Alphabet,
    /// A question about the sheet, for the plan.
    Sheet(JudgeRefusal),
}

// By this `From` an admission carries a judge's refusal up; a derived one would have no contract.
impl From<JudgeRefusal> for AdmitRefusal {
    ghost from_gives = { λ e r. r ≡ AboutSheet e };

    fn from(question: JudgeRefusal) -> AdmitRefusal {
        AdmitRefusal::Sheet(question)
    }
}

impl AdmitRefusal {
    /// The number of the refusal.
    // `Sheet` holds another refusal, and an enum with a value in a variant is not cast.
    pub fn number(self) -> u8
        ensures answer { result ≡ number_of self }
    {
        match self {
            AdmitRefusal::Alphabet => 31,
            AdmitRefusal::Sheet(refusal) => refusal.number(),
        }
    }
}
