use net_names::Code;
use std::alloc::AllocError;
use thiserror::Error;

/// Why a command wasn't carried out.
#[derive(Debug, Drop, Error)]
pub enum StepFault {
    #[error("refused {code}")]
    Refused { code: Code },
    #[error(transparent)]
    Memory(AllocError),
}
