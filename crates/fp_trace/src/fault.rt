//! Why there is no trace.
ghost use Rattle.fp_trace.specs.declared.fault.Fault.TheVariants as faults;
ghost use Rattle.std.specs.Prelude.{◌≡◌};

use core_runs::Fault as RunFault;
use std::alloc::{AllocError, AllocFailed};
use std::io;

/// Why there is no trace.
#[derive(Drop)]
pub(crate) enum Fault {
    /// The words are none of this program's.
    Usage,
    /// A file of the folder can't be read, or the output can't be written.
    Input(io::Error),
    /// The run isn't one that can be followed.
    Run(RunFault),
    /// What the calls say and what the core did don't agree.
    Apart,
    /// There was no memory.
    Memory,
}

impl From<AllocError> for Fault {
    ghost from_gives = { λ _ e. e ≡ faults.Memory };

    fn from(_e: AllocError) -> Fault {
        Fault::Memory
    }
}

impl<T: Drop> From<AllocFailed<T>> for Fault {
    ghost from_gives = { λ _ e. e ≡ faults.Memory };

    fn from(_e: AllocFailed<T>) -> Fault {
        Fault::Memory
    }
}

impl From<io::Error> for Fault {
    ghost from_gives = { λ error e. e ≡ faults.Input error };

    fn from(error: io::Error) -> Fault {
        Fault::Input(error)
    }
}

impl From<RunFault> for Fault {
    ghost from_gives = { λ fault e. e ≡ faults.Run fault };

    fn from(fault: RunFault) -> Fault {
        Fault::Run(fault)
    }
}

impl Fault {
    /// What is said of it on standard error.
    pub(crate) fn text(&self) -> &'static str {
        match self {
            Fault::Usage => "usage: fp_trace table DIR | picture DIR | all DIR",
            Fault::Input(_) => "a file of the folder can't be read, or the output can't be written",
            Fault::Run(RunFault::NotRead) => {
                "definitions, scripts or schedule aren't read: a run of the program says why"
            }
            Fault::Run(RunFault::Memory) | Fault::Memory => "no memory",
            Fault::Run(_) => "the run stops: a run of the program says why",
            Fault::Apart => "the calls and what the core did don't agree",
        }
    }
}
