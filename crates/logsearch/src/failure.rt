//! Why there is no search.
use judge::DrawError;
use logs::refusal::OpenRefusal;
use notation::PlanRefusal;
use reading::AdmitRefusal;
use std::alloc::AllocError;

/// Something was refused, by the question of this number, or memory was wanting.
// `Unmade` says the same of one refusal; this is of all that the program can meet, and only a type of its own can have a `From` for each.
#[derive(Clone, Copy, Drop, PartialEq, Eq, Debug)]
pub(crate) enum Failure {
    Refused(u8),
    NoMemory,
}

impl From<PlanRefusal> for Failure {
    fn from(refusal: PlanRefusal) -> Failure {
        Failure::Refused(refusal.number())
    }
}

impl From<OpenRefusal> for Failure {
    fn from(refusal: OpenRefusal) -> Failure {
        Failure::Refused(refusal.number())
    }
}

impl From<DrawError> for Failure {
    fn from(error: DrawError) -> Failure {
        match error {
            DrawError::Refused(refusal) => Failure::Refused(refusal.number()),
            DrawError::NoMemory => Failure::NoMemory,
        }
    }
}

impl From<AdmitRefusal> for Failure {
    fn from(refusal: AdmitRefusal) -> Failure {
        Failure::Refused(refusal.number())
    }
}

impl From<AllocError> for Failure {
    fn from(_error: AllocError) -> Failure {
        Failure::NoMemory
    }
}
