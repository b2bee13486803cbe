//! Why a call returned no result.
use campaign::{ExpandFault, ServeFault};
use script::LoadError;

/// Memory was refused; or another fault occurred, which no call here has.
#[derive(Clone, Copy)]
pub(crate) enum Fault {
    Memory,
    Other,
}

pub(crate) fn of_loading(error: LoadError) -> Fault {
    match error {
        LoadError::Memory => Fault::Memory,
        LoadError::Fault(_) => Fault::Other,
    }
}

pub(crate) fn of_expanding(fault: ExpandFault) -> Fault {
    match fault {
        ExpandFault::Memory => Fault::Memory,
        ExpandFault::TooManyPoints => Fault::Other,
    }
}

pub(crate) fn of_serving(fault: ServeFault) -> Fault {
    match fault {
        ServeFault::Memory => Fault::Memory,
        _ => Fault::Other,
    }
}
