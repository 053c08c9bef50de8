//! Definitions that all contracts cite, the enums and structs that definitions and code share, and laws about the
//! definitions. Every crate but `par2_md5_lanes` is built on this one. It has no code but messages and conversions of
//! faults, and must not know how anything is computed, stored or printed. The functions of the `_laws` modules are
//! empty: the contract of each is a law, whose statement is in specs/. A function calls the laws that its contract
//! needs.
#![tactic(auto)]

mod commands;
pub mod field_laws;
pub mod folder_laws;
pub mod packet_laws;
pub mod rank_laws;
pub mod repair_laws;
pub mod search_laws;
pub mod session_laws;
pub mod stop_laws;

pub use commands::{Action, Command, CreateArgs};
use std::alloc::{AllocError, AllocFailed};
use std::fmt::{self, Display, Formatter, Write};
use thiserror::Error;

/// A result that fails only if memory runs out, unless it names another error.
pub type Result<T, E = AllocError> = std::result::Result<T, E>;

/// The type of a packet (PAR2 2.0, Packet Header).
#[derive(Clone, Copy, PartialEq, Eq, Drop)]
pub enum Kind {
    Main,
    FileDesc,
    Ifsc,
    Recovery,
    Creator,
    Other([u8; 16]),
}

/// Why a command is refused. A place counts the names of the command: 0 is the base, k the k-th further name. `Display`
/// shows the place, because the fault doesn't have the name; the program prints the name.
#[derive(Debug, Clone, Copy, PartialEq, Eq, Drop)]
pub enum Fault {
    /// The slice size is not a multiple of 4 from 4 to 2^30.
    BadSliceSize,
    /// An exponent would be above 65,535.
    BadCount,
    /// The base is not a file name that ends in `.par2`.
    BadBase,
    /// No input is named.
    NoInput,
    /// The name at this place is not allowed for an input.
    BadName(usize),
    /// The name at this place is that of an earlier input.
    DuplicateInput(usize),
    /// No file has the name at this place.
    NoSuchFile(usize),
    /// The file at this place is empty.
    EmptyFile(usize),
    /// The inputs have more than 32,768 slices.
    TooManySlices,
    /// Two inputs have the same File ID.
    DuplicateId,
    /// A file name would be longer than 255 bytes.
    NameTooLong,
    /// An output exists and may not be replaced.
    Exists,
    /// The base has no packets.
    NoPackets,
    /// The set has no Main packet.
    NoMain,
    /// A target has no FileDesc packet.
    NoDescription,
    /// A target has no IFSC packet.
    NoChecksums,
    /// The set is outside the profile of this program.
    BadSet,
    /// `missing` slices are lost, and the recovery slices have a lower rank.
    NotRepairable { missing: usize, rank: usize },
    /// A rebuilt file does not have the MD5 of its target.
    RepairFailed,
    /// A target is not complete, so a purge is refused.
    NotComplete,
    /// Memory ran out.
    Memory,
}

impl Fault {
    ghost use Rattle.std.specs.Prelude.{◌≡◌};
    ghost use Rattle.par2_spec.specs.Output.{fault_reason};

    /// The message of the fault, without the name or numbers that complete it.
    #[tactic(auto, unfolding(crate::specs::Output::fault_reason))]
    pub fn reason(self) -> &'static str
        ensures { result.now ≡ fault_reason self }
    {
        match self {
            Fault::BadSliceSize => "block size must be a multiple of 4 from 4 to 1073741824",
            Fault::BadCount => "block numbers must stay below 65536",
            Fault::BadBase => "the base must be a file name that ends in .par2",
            Fault::NoInput => "no input files",
            Fault::BadName(_) => "bad input name: ",
            Fault::DuplicateInput(_) => "input named twice: ",
            Fault::NoSuchFile(_) => "no such file: ",
            Fault::EmptyFile(_) => "empty input: ",
            Fault::TooManySlices => "more than 32768 blocks",
            Fault::DuplicateId => "two inputs have one file id",
            Fault::NameTooLong => "a file name would be longer than 255 bytes",
            Fault::Exists => "an output file exists",
            Fault::NoPackets => "no packets in the base",
            Fault::NoMain => "no main packet",
            Fault::NoDescription => "a file description is missing",
            Fault::NoChecksums => "block checksums are missing",
            Fault::BadSet => "the set is not in this profile",
            Fault::NotRepairable { .. } => "not repairable, ",
            Fault::RepairFailed => "a rebuilt file has another digest",
            Fault::NotComplete => "the files are not complete",
            Fault::Memory => "out of memory",
        }
    }
}

impl Display for Fault {
    fn fmt<W: Write>(&self, f: &mut Formatter<W>) -> fmt::Result {
        f.write_str(self.reason())?;
        match self {
            Fault::BadName(place)
            | Fault::DuplicateInput(place)
            | Fault::NoSuchFile(place)
            | Fault::EmptyFile(place) => place.fmt(f),
            Fault::NotRepairable { missing, rank } => write!(f, "lost {missing}, rank {rank}"),
            _ => Ok(()),
        }
    }
}

impl std::error::Error for Fault {}

impl From<AllocError> for Fault {
    ghost use Rattle.std.specs.Prelude.{◌≡◌};
    ghost use Rattle.par2_spec.specs.declared.Fault.{Fault};

    ghost from_gives = { λ _ fault. fault ≡ Fault.Memory };

    fn from(_: AllocError) -> Self {
        Fault::Memory
    }
}

impl<T: Drop> From<AllocFailed<T>> for Fault {
    ghost use Rattle.std.specs.Prelude.{◌≡◌};
    ghost use Rattle.par2_spec.specs.declared.Fault.{Fault};

    ghost from_gives = { λ _ fault. fault ≡ Fault.Memory };

    fn from(_: AllocFailed<T>) -> Self {
        Fault::Memory
    }
}

/// Why a journal is refused.
#[derive(Debug, Error, Clone, Copy, PartialEq, Eq, Drop)]
pub enum JournalFault {
    #[error("the journal is not valid")]
    JournalInvalid,
    /// The journal is that of another folder. `halfway` is true if it is the journal of an unfinished command.
    #[error("the folder is not as the journal left it")]
    FolderChanged { halfway: bool },
    #[error("out of memory")]
    Memory,
}

impl From<AllocError> for JournalFault {
    ghost use Rattle.std.specs.Prelude.{◌≡◌};
    ghost use Rattle.par2_spec.specs.declared.JournalFault.{JournalFault};

    ghost from_gives = { λ _ fault. fault ≡ JournalFault.Memory };

    fn from(_: AllocError) -> Self {
        JournalFault::Memory
    }
}

/// Why a change is refused.
#[derive(Debug, Error, Clone, Copy, PartialEq, Eq, Drop)]
pub enum ChangeFault {
    #[error("a file has that name")]
    NameTaken,
    #[error("no place is vacant")]
    NoRoom,
    #[error("no file has that name")]
    NoSuchName,
}

/// The verdict of a verify.
#[derive(Clone, Copy, PartialEq, Eq, Debug, Drop)]
pub enum Verdict {
    Complete,
    Repairable,
    NotRepairable,
}

/// Why a run of the program fails.
#[derive(Clone, Copy, Drop)]
pub enum Failure {
    Refused(Fault),
    Store,
    Arguments,
    JournalInvalid,
    FolderChanged,
    NothingToUndo,
    NothingToRedo,
}

/// The version of the journal format.
#[derive(Clone, Copy, PartialEq, Eq, Drop)]
pub enum Version {
    /// Without a cursor: all entries are undos.
    One,
    /// With a cursor: the entries after it are redos.
    Two,
}
