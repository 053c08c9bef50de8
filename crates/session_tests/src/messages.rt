//! A fault displays itself as the program prints it. If the program prints the name at a place, the fault, which has no
//! names, displays the place.
use crate::fixtures::args_of;
use crate::printing::is_reported;
use par2_arguments::WordsFault;
use par2_folder::{BadName, ChangeFault, ReadFault, StoreFault};
use par2_journal::{JournalFault, NothingToRedo, NothingToUndo, SessionFault};
use par2_output::WriteFault;
use par2_recovery::{RebuildFault, RecordFault};
use par2_spec::{Action, Command, Failure, Fault};
use par2_tool::{OpenFault, PerformFault};
use std::alloc::{AllocError, Global};
use std::fmt::Display;
use std::test::Fail;

const NOT_REPAIRABLE: Fault = Fault::NotRepairable {
    missing: 12,
    rank: 7,
};

const FAULTS: &[Fault] = &[
    Fault::BadSliceSize,
    Fault::BadCount,
    Fault::BadBase,
    Fault::NoInput,
    Fault::BadName(1),
    Fault::DuplicateInput(2),
    Fault::NoSuchFile(0),
    Fault::EmptyFile(1),
    Fault::TooManySlices,
    Fault::DuplicateId,
    Fault::NameTooLong,
    Fault::Exists,
    Fault::NoPackets,
    Fault::NoMain,
    Fault::NoDescription,
    Fault::NoChecksums,
    Fault::BadSet,
    NOT_REPAIRABLE,
    Fault::RepairFailed,
    Fault::NotComplete,
    Fault::Memory,
];

// A create whose base and inputs have their places for names.
fn named_by_places(alloc: Global) -> Result<Command, AllocError> {
    let args = args_of(alloc, 4, "0", &["1", "2"])?;
    Ok(Command::Act(Action::Create(args)))
}

// Whether the fault displays what is printed of the failure.
fn shows<F: Display + Drop>(alloc: Global, fault: F, failure: Failure) -> Result<bool, AllocError> {
    let command = named_by_places(alloc)?;
    let shown = format!(in alloc; "{fault}")?;
    is_reported(alloc, Some(&command), failure, shown.as_str())
}

#[test]
fn faults_of_commands(rt: HostRuntime) -> Result<(), Fail> {
    for fault in FAULTS {
        let failure = Failure::Refused(*fault);
        assert!(rt; shows(rt.alloc(), *fault, failure)?, "{fault}");
        assert!(rt;
            shows(rt.alloc(), SessionFault::Plan(*fault), failure)?,
            "{fault}"
        );
    }
    Ok(())
}

const PERFORM_FAULTS: &[PerformFault] = &[
    PerformFault::Session(SessionFault::Plan(NOT_REPAIRABLE)),
    PerformFault::Session(SessionFault::NothingToUndo),
    PerformFault::Session(SessionFault::NothingToRedo),
    PerformFault::Store,
];

const OPEN_FAULTS: &[OpenFault] = &[
    OpenFault::Store,
    OpenFault::Memory,
    OpenFault::JournalInvalid,
    OpenFault::FolderChanged,
];

const WORDS_FAULTS: &[WordsFault] = &[WordsFault::Arguments, WordsFault::Memory];

#[test]
fn faults_of_runs(rt: HostRuntime) -> Result<(), Fail> {
    for fault in PERFORM_FAULTS {
        assert!(rt;
            shows(rt.alloc(), *fault, Failure::from(*fault))?,
            "{fault}"
        );
    }
    for fault in OPEN_FAULTS {
        assert!(rt;
            shows(rt.alloc(), *fault, Failure::from(*fault))?,
            "{fault}"
        );
    }
    for fault in WORDS_FAULTS {
        assert!(rt;
            shows(rt.alloc(), *fault, Failure::from(*fault))?,
            "{fault}"
        );
    }
    Ok(())
}

const JOURNAL_FAULTS: &[(JournalFault, Failure)] = &[
    (JournalFault::JournalInvalid, Failure::JournalInvalid),
    (
        JournalFault::FolderChanged { halfway: true },
        Failure::FolderChanged,
    ),
    (JournalFault::Memory, Failure::Refused(Fault::Memory)),
];

#[test]
fn faults_of_journals(rt: HostRuntime) -> Result<(), Fail> {
    for (fault, failure) in JOURNAL_FAULTS {
        assert!(rt; shows(rt.alloc(), *fault, *failure)?, "{fault}");
    }
    assert!(rt; shows(rt.alloc(), NothingToUndo, Failure::NothingToUndo)?);
    assert!(rt; shows(rt.alloc(), NothingToRedo, Failure::NothingToRedo)?);
    Ok(())
}

const RECORD_FAULTS: &[(RecordFault, Fault)] = &[
    (RecordFault::DuplicateId, Fault::DuplicateId),
    (RecordFault::Memory, Fault::Memory),
];

const REBUILD_FAULTS: &[(RebuildFault, Fault)] = &[
    (
        RebuildFault::NotRepairable {
            missing: 12,
            rank: 7,
        },
        NOT_REPAIRABLE,
    ),
    (RebuildFault::Memory, Fault::Memory),
];

#[test]
fn faults_of_recovery(rt: HostRuntime) -> Result<(), Fail> {
    for (fault, reported) in RECORD_FAULTS {
        assert!(rt;
            shows(rt.alloc(), *fault, Failure::Refused(*reported))?,
            "{fault}"
        );
    }
    for (fault, reported) in REBUILD_FAULTS {
        assert!(rt;
            shows(rt.alloc(), *fault, Failure::Refused(*reported))?,
            "{fault}"
        );
    }
    Ok(())
}

// Whether a fault that the program never prints displays itself like this.
fn is_shown_as<F: Display + Drop>(alloc: Global, fault: F, line: &str) -> Result<bool, AllocError> {
    Ok(format!(in alloc; "{fault}")?.as_str() == line)
}

const CHANGE_FAULTS: &[(ChangeFault, &str)] = &[
    (ChangeFault::NameTaken, "a file has that name"),
    (ChangeFault::NoRoom, "no place is vacant"),
    (ChangeFault::NoSuchName, "no file has that name"),
];

const READ_FAULTS: &[(ReadFault, &str)] = &[
    (ReadFault::Store, "the folder could not be read"),
    (ReadFault::Memory, "out of memory"),
];

#[test]
fn faults_of_folders_and_writers(rt: HostRuntime) -> Result<(), Fail> {
    for (fault, line) in CHANGE_FAULTS {
        assert!(rt; is_shown_as(rt.alloc(), *fault, line)?, "{line}");
    }
    for (fault, line) in READ_FAULTS {
        assert!(rt; is_shown_as(rt.alloc(), *fault, line)?, "{line}");
    }
    assert!(rt; is_shown_as(rt.alloc(), StoreFault, "the folder could not be written")?);
    assert!(rt; is_shown_as(rt.alloc(), WriteFault, "a text could not be written")?);
    assert!(rt; is_shown_as(rt.alloc(), BadName, "the text is no name of a file")?);
    Ok(())
}
