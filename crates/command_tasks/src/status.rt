//! How the program ends.
ghost use Rattle.std.specs.Prelude.{◌≡◌, IfOk};
ghost use Rattle.command_tasks.specs.Texts.{fault_text, number_of};

use crate::texts::{
    damage_text, definitions_text, entry_text, joined, line_text, part_name, schedule_text,
    scripts_text,
};
use fp_defs::DefsFault;
use fp_model::Bytes;
use fp_schedule::ScheduleFault;
use fp_source::Part;
use std::alloc::{AllocError, Global};
use txn_lang::ScriptFault;

/// How the program ends.
#[derive(PartialEq, Eq, Drop)]
pub enum Status {
    /// All was done.
    Done,
    /// The words are no command.
    Usage,
    /// The definitions have this fault.
    Definitions(DefsFault),
    /// The scripts have this fault.
    Scripts(ScriptFault),
    /// The schedule has this fault.
    Schedule(ScheduleFault),
    /// A read of a part failed.
    ReadFault,
    /// The site failed.
    SiteFault,
    /// The log is of other definitions or scripts, or there is none.
    Foreign,
    /// The bytes of a data set at this place are outside their format.
    Damaged {
        /// The number of the data set: 0 is the log.
        set: u16,
        /// The place of the group's gate, in bytes from the data set's beginning.
        at: u64,
    },
    /// The message line of this number, counted from 1, is too long, or one too many.
    Line {
        /// The number of the line.
        number: u64,
    },
    /// There was no memory.
    NoMemory,
    /// The part asks for something that isn't built yet.
    NotBuilt(Part),
    /// The log is one of format 1, in which no message has a number: it is to be migrated before a run.
    OldFormat,
    /// The log's entry at this place is the first that isn't legal.
    Illegal {
        /// The place of the entry, counted from 0.
        entry: u64,
    },
}

impl From<AllocError> for Status {
    ghost use Rattle.command_tasks.specs.declared.status.Status.TheVariants as status;

    ghost from_gives = { λ _ e. e ≡ status.NoMemory };

    fn from(_: AllocError) -> Status {
        Status::NoMemory
    }
}

impl Status {
    /// The number with which the program ends.
    pub fn number(&self) -> u8
        ensures { result ≡ number_of self.now }
    {
        match self {
            Status::Done => 0,
            Status::Usage => 1,
            Status::Definitions(_) => 2,
            Status::Scripts(_) => 3,
            Status::Schedule(_) => 4,
            Status::ReadFault => 5,
            Status::SiteFault => 6,
            Status::Foreign => 7,
            Status::Damaged { .. } => 8,
            Status::Line { .. } => 9,
            Status::NoMemory => 10,
            Status::NotBuilt(_) => 11,
            Status::OldFormat => 12,
            Status::Illegal { .. } => 13,
        }
    }
}

/// What is said of a status on standard error, without a newline; nothing of `Done`. Fails only for want of memory.
pub fn fault_text(alloc: Global, status: &Status) -> Result<Bytes, AllocError>
    ensures { IfOk result (λ text. text ≡ fault_text status.now) }
{
    match status {
        Status::Done => Ok(Bytes::new(alloc)),
        Status::Usage => {
            Bytes::from_slice(
                alloc,
                b"usage: ims_fp define DIR | run DIR | show DIR | log DIR | migrate DIR | audit DIR",
            )
        },
        Status::Definitions(fault) => definitions_text(alloc, fault),
        Status::Scripts(fault) => scripts_text(alloc, *fault),
        Status::Schedule(fault) => schedule_text(alloc, *fault),
        Status::ReadFault => Bytes::from_slice(alloc, b"read fault"),
        Status::SiteFault => Bytes::from_slice(alloc, b"site fault"),
        Status::Foreign => Bytes::from_slice(alloc, b"foreign log"),
        Status::Damaged { set, at } => damage_text(alloc, *set, *at),
        Status::Line { number } => line_text(alloc, *number),
        Status::NoMemory => Bytes::from_slice(alloc, b"no memory"),
        Status::NotBuilt(part) => joined(alloc, b"not built: ", part_name(*part), b""),
        Status::OldFormat => Bytes::from_slice(alloc, b"old format"),
        Status::Illegal { entry } => entry_text(alloc, *entry),
    }
}
