//! Why a file was refused.
ghost use Rattle.std.specs.Prelude.{◌≡◌};
ghost use Rattle.script.specs.declared.fault.LoadError.TheVariants as error;

use crate::place::Place;
use std::alloc::AllocError;

/// What a check finds.
#[derive(Clone, Copy)]
pub enum FaultKind {
    /// What has to be there is not.
    Missing,
    /// A value of another kind: a text for a number, say.
    WrongKind,
    /// A number outside its range, or a text that is no name.
    OutOfRange,
    /// A text that spells no op, or no point.
    BadOp,
    /// An op, a base interrupt or a point names what no entry is.
    UnknownName,
    /// A name that an earlier entry has.
    DoubleName,
    /// An op that is not allowed where it is, by the blocks that are open there, or a block that is left open.
    BadNesting,
    /// An `overwrite` of a queue whose length isn't 1.
    OverwriteLength,
    /// More entries than there may be.
    TooMany,
    /// A command of a handler, if there is no daemon.
    NoDaemon,
}

impl FaultKind {
    ghost use Rattle.std.specs.Prelude.{◌≡◌};
    ghost use Rattle.script.specs.Faults.{fault_code, fault_at};

    /// The number of the fault: 1 to 9, or 11.
    pub fn code(self) -> u8
        ensures { result ≡ fault_code self }
    {
        match self {
            FaultKind::Missing => 1,
            FaultKind::WrongKind => 2,
            FaultKind::OutOfRange => 3,
            FaultKind::BadOp => 4,
            FaultKind::UnknownName => 5,
            FaultKind::DoubleName => 6,
            FaultKind::BadNesting => 7,
            FaultKind::OverwriteLength => 8,
            FaultKind::TooMany => 9,
            FaultKind::NoDaemon => 11,
        }
    }

    // The fault of this kind at a place.
    pub(crate) fn at(self, place: Place) -> Fault
        ensures { result ≡ fault_at self place }
    {
        Fault { kind: self, place }
    }
}

/// The first check that failed, and where.
#[derive(Clone, Copy)]
pub struct Fault {
    pub kind: FaultKind,
    pub place: Place,
}

/// Why a document was not loaded.
#[derive(Clone, Copy)]
pub enum LoadError {
    /// The fault of the first of its checks that fails.
    Fault(Fault),
    /// No check fails, and there was no memory.
    Memory,
}

impl From<Fault> for LoadError {
    ghost from_gives = { λ fault e. e ≡ error.Fault fault };

    fn from(fault: Fault) -> LoadError {
        LoadError::Fault(fault)
    }
}

impl From<AllocError> for LoadError {
    ghost from_gives = { λ _ e. e ≡ error.Memory };

    fn from(_error: AllocError) -> LoadError {
        LoadError::Memory
    }
}
