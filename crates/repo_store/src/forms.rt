//! How replies are written.

ghost use Rattle.std.specs.Prelude.{◌≡◌, ℕ, List, OnOk};

use crate::output::Unwritten;
use repo_wire::{Fault, WireError};
use std::alloc::AllocError;
use thiserror::Error;

/// How the frame of each reply is written.
pub trait Form {
    /// What is written for a frame.
    ghost shown: { List ℕ → List ℕ };

    /// Makes of a frame what is written for it.
    fn show(&self, frame: &mut Vec<u8>) -> Result<(), AllocError>
        ensures { OnOk result (frame.new.items ≡ shown frame.old.items) };
}

/// Each frame as it is.
#[derive(Clone, Copy, Debug)]
pub struct Plain;

impl Form for Plain {
    ghost use Rattle.repo_store.specs.Serving.{plain};

    ghost shown = { plain };

    fn show(&self, _frame: &mut Vec<u8>) -> Result<(), AllocError> {
        Ok(())
    }
}

/// Why a service ended before its bytes did. The requests before it were answered, and their replies
/// written; but after `Write`, `Limit` and `Memory` some first part of them was.
#[derive(Clone, Copy, Debug, PartialEq, Eq, Error)]
pub enum ServiceError {
    /// The stream has this fault.
    #[error("{0}")]
    Wire(Fault),
    /// The writer failed, or took nothing.
    #[error("write failed")]
    Write,
    /// 2^32 requests were answered.
    #[error("limit")]
    Limit,
    /// There was no memory.
    #[error("out of memory")]
    Memory,
}

impl From<AllocError> for ServiceError {
    ghost use Rattle.std.specs.Prelude.{◌≡◌};
    ghost use Rattle.repo_store.specs.declared.forms.ServiceError.{ServiceError};

    ghost from_gives = { λ e r. r ≡ ServiceError.Memory };

    fn from(_: AllocError) -> ServiceError {
        ServiceError::Memory
    }
}

impl From<Unwritten> for ServiceError {
    ghost use Rattle.std.specs.Prelude.{◌≡◌};
    ghost use Rattle.repo_store.specs.declared.forms.ServiceError.{ServiceError};

    ghost from_gives = { λ e r. r ≡ ServiceError.Write };

    fn from(_: Unwritten) -> ServiceError {
        ServiceError::Write
    }
}

impl From<WireError> for ServiceError {
    ghost use Rattle.std.specs.Prelude.{◌≡◌};
    ghost use Rattle.repo_store.specs.Services.{service_error};

    ghost from_gives = { λ e r. r ≡ service_error e };

    fn from(error: WireError) -> ServiceError {
        match error {
            WireError::Fault(fault) => ServiceError::Wire(fault),
            WireError::Memory => ServiceError::Memory,
        }
    }
}
