use net_names::Code;
use std::alloc::AllocError;
use thiserror::Error;

/// Why a socket wasn't made.
#[derive(Debug, Drop, Error)]
pub enum SocketFault {
    #[error("refused {code}")]
    Refused { code: Code },
    #[error(transparent)]
    Memory(AllocError),
}
