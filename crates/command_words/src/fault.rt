use std::alloc::AllocError;
use thiserror::Error;

/// Why words say no form.
#[derive(Debug, Drop, Error)]
pub enum WordsFault {
    #[error("the words have no form")]
    NoForm,
    #[error(transparent)]
    Memory(AllocError),
}
