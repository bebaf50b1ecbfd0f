//! Why a file was not read.
ghost use Rattle.std.specs.Prelude.{◌≡◌};
ghost use Rattle.refusal.specs.declared.fault.FieldFault.TheVariants as field;
ghost use Rattle.reading.specs.declared.error.ReadError.{ReadError};

use refusal::{ByteFault, FieldFault};
use std::alloc::{AllocError, AllocFailed};
use std::error::Error;
use std::fmt;

/// A file is refused, or there was no memory to hold what it says.
#[derive(Clone, Copy, Debug)]
pub enum ReadError {
    Refused(FieldFault),
    Memory,
}

impl From<FieldFault> for ReadError {
    ghost from_gives = { λ f e. e ≡ ReadError.Refused f };

    fn from(fault: FieldFault) -> ReadError {
        ReadError::Refused(fault)
    }
}

impl From<ByteFault> for ReadError {
    ghost from_gives = { λ b e. e ≡ ReadError.Refused (field.Bytes b) };

    fn from(fault: ByteFault) -> ReadError {
        ReadError::Refused(FieldFault::Bytes(fault))
    }
}

impl From<AllocError> for ReadError {
    ghost from_gives = { λ _ e. e ≡ ReadError.Memory };

    fn from(_none: AllocError) -> ReadError {
        ReadError::Memory
    }
}

impl<T: Drop> From<AllocFailed<T>> for ReadError {
    ghost from_gives = { λ _ e. e ≡ ReadError.Memory };

    fn from(_none: AllocFailed<T>) -> ReadError {
        ReadError::Memory
    }
}

impl Error for ReadError {}

impl fmt::Display for ReadError {
    fn fmt<W: fmt::Write>(&self, f: &mut fmt::Formatter<W>) -> fmt::Result {
        match self {
            ReadError::Refused(fault) => write!(f, "{fault}"),
            ReadError::Memory => write!(f, "there is no memory to hold what the file says"),
        }
    }
}
