//! What went wrong, and with which file.
use crate::texts::{FileOf, write_error};
use mig_base::Name;
use mig_calls::Place;
use std::fmt::{self, Display, Formatter};
use std::io::{self, ErrorKind};

/// The system's error where a process may open no more files (EMFILE).
const TOO_MANY_OPEN: i32 = 24;

/// What helps after a sync that failed: what reads give may not be on the device, and no later sync brings it there.
const ANEW: &str =
    "mount its file system anew and then remove unsynced.mig, or start the machine anew";

/// What went wrong, and with which file.
#[derive(Clone, Copy)]
pub enum Failure {
    OfDisk(Name, io::Error),
    OfJournal(io::Error),
    OfFolder(io::Error),
    /// The sync of a file failed, or that of the folder.
    OfSync(Option<Place>, io::Error),
    /// It failed in an earlier process, or in this one.
    Unsynced(Option<Place>),
    /// Two disks are one file.
    OneFile(Name, Name),
    /// The disk is the journal's file.
    IsJournal(Name),
}

impl Failure {
    /// Memory was refused while a disk's file was worked with.
    pub fn memory(name: Name) -> Failure {
        Failure::OfDisk(name, ErrorKind::OutOfMemory.into())
    }

    /// The system's error, and one of no kind where there is none.
    fn error(&self) -> io::Error {
        match self {
            Failure::OfDisk(_, error)
            | Failure::OfJournal(error)
            | Failure::OfFolder(error)
            | Failure::OfSync(_, error) => *error,
            _ => ErrorKind::Other.into(),
        }
    }

    /// Whether it came of this kind.
    fn is_of(&self, kind: ErrorKind) -> bool {
        self.error().kind() == kind
    }

    /// Whether a file isn't there.
    pub fn is_missing(&self) -> bool {
        self.is_of(ErrorKind::NotFound)
    }

    /// Whether a signal came first.
    pub fn is_interruption(&self) -> bool {
        self.is_of(ErrorKind::Interrupted)
    }

    /// Whether too many files are open.
    pub fn is_full(&self) -> bool {
        self.error().raw_os_error() == Some(TOO_MANY_OPEN)
    }
}

/// What a sync gave.
pub fn of_sync(made: io::Result<()>, place: Option<Place>) -> Result<(), Failure> {
    match made {
        Ok(()) => Ok(()),
        Err(error) => Err(Failure::OfSync(place, error)),
    }
}

/// The error, where it tells what is wrong or the call may be made again, and else these words.
pub fn unless_told(error: io::Error, words: &str) -> io::Error {
    match error.kind() {
        ErrorKind::Other | ErrorKind::OutOfMemory | ErrorKind::Interrupted => error,
        _ if error.raw_os_error() == Some(TOO_MANY_OPEN) => error,
        _ => io::Error::other(words),
    }
}

/// The error where a process may open no more files.
pub fn too_many_open() -> io::Error {
    io::Error::from_raw_os_error(TOO_MANY_OPEN)
}

impl Display for Failure {
    fn fmt<W: fmt::Write>(&self, f: &mut Formatter<W>) -> fmt::Result {
        match self {
            Failure::OfDisk(name, error) => write_error(f, &Some(Place::Disk(*name)), *error),
            Failure::OfJournal(error) => write_error(f, &Some(Place::Journal), *error),
            Failure::OfFolder(error) => write_error(f, &None, *error),
            Failure::OfSync(place, error) => write!(f, "{}: {error}: {ANEW}", FileOf(place)),
            Failure::Unsynced(place) => {
                write!(f, "{}: a sync of it has failed: {ANEW}", FileOf(place))
            }
            Failure::OneFile(disk, other) => write_one_file(f, disk, Place::Disk(*other)),
            Failure::IsJournal(disk) => write_one_file(f, disk, Place::Journal),
        }
    }
}

fn write_one_file<W: fmt::Write>(f: &mut Formatter<W>, disk: &Name, other: Place) -> fmt::Result {
    let (one, other) = (Some(Place::Disk(*disk)), Some(other));
    write!(f, "{} and {} are one file", FileOf(&one), FileOf(&other))
}
