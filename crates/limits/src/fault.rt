// What is wrong with an input, and where.
ghost use Rattle.limits.specs.Refusals.{fault_text, layer_number};
ghost use Rattle.limits.specs.declared.fault.ReadError.TheVariants.{Fault as AtFault, NoMemory as OutOfMemory};
ghost use Rattle.std.specs.Prelude.{◌≡◌, Some, MatchResult};

use crate::refusal::Refusal;
use std::alloc::{AllocError, AllocFailed};
use std::fmt;

// The layer of reading in which a fault arose.
#[derive(Clone, Copy, PartialEq, Eq, Debug)]
pub enum Layer {
    RecordBytes = 1,
    PlanValues = 2,
    Script = 3,
}

impl Layer {
    // One cast, as that of a refusal.
    pub fn number(self) -> u8
        ensures answer { result ≡ layer_number self }
    {
        self as u8
    }
}

// A fault passes up whole. Its place is the number of the record (from 0) or of the script line (from 1).
#[derive(Clone, Copy, PartialEq, Eq, Debug)]
pub struct Fault {
    pub layer: Layer,
    pub refusal: Refusal,
    pub place: usize,
}

impl fmt::Display for Fault {
    ghost output = { λ f. Some (fault_text f) };

    fn fmt<W: fmt::Write>(&self, f: &mut fmt::Formatter<W>) -> fmt::Result {
        let layer = self.layer.number();
        let refusal = self.refusal.number();
        write!(f, "fault {} {} {}", layer, refusal, self.place)
    }
}

// Why bytes were not read: a fault, or want of memory, which has no number.
#[derive(Clone, Copy)]
pub enum ReadError {
    Fault(Fault),
    NoMemory,
}

impl ReadError {
    // The fault that is to be told, if it is not that memory wants.
    pub fn fault(self) -> Result<Fault, AllocError>
        ensures answer { MatchResult result (λ f. self ≡ AtFault f) (λ _. self ≡ OutOfMemory) }
    {
        match self {
            ReadError::Fault(fault) => Ok(fault),
            ReadError::NoMemory => Err(AllocError),
        }
    }
}

impl From<Fault> for ReadError {
    ghost from_gives = { λ f r. r ≡ AtFault f };

    fn from(found: Fault) -> ReadError {
        ReadError::Fault(found)
    }
}

impl From<AllocError> for ReadError {
    ghost from_gives = { λ _ r. r ≡ OutOfMemory };

    fn from(_e: AllocError) -> ReadError {
        ReadError::NoMemory
    }
}

impl<T: Drop> From<AllocFailed<T>> for ReadError {
    ghost from_gives = { λ _ r. r ≡ OutOfMemory };

    fn from(_e: AllocFailed<T>) -> ReadError {
        ReadError::NoMemory
    }
}
