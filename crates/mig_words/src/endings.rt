//! Why a command isn't done.
ghost use Rattle.std.specs.Prelude.{◌≡◌};

use mig_base::{Blame, FileKind, Name, Why};
use mig_csv::InputError;
use mig_io::SaveFailed;
use std::alloc::{AllocError, AllocFailed};

/// A text that a command reads beside the three files.
#[derive(Clone, Copy)]
pub enum TextFile {
    Plan,
    Cert,
    /// The orders of a session that reads items and carries a plan out step by step.
    Script,
}

impl TextFile {
    ghost use Rattle.mig_words.specs.Outcomes.{spelling_code};

    /// The number of the status where the text is no spelling.
    fn code(&self) -> u8
        ensures { result ≡ spelling_code self.now }
    {
        match self {
            TextFile::Plan => 10,
            TextFile::Cert => 10,
            TextFile::Script => 15,
        }
    }
}

/// What is found wrong with what a command was given, with what its text shows.
#[derive(Clone, Copy)]
pub enum InputRefusal {
    /// The plan or its certificate is blamed. The name is that of the item or the disk that the blame names, if it names one.
    Blamed {
        blame: Blame,
        name: Option<Name>,
    },
    /// The three files stand for no input. Row 0 is the header.
    Refused {
        file: FileKind,
        row: u32,
        why: Why,
    },
    /// A text is no spelling. Lines count from 1; 0 says that the text is too long.
    NotSpelled {
        text: TextFile,
        line: u32,
    },
    /// The plan runs, but has this many shifts, more than a drill takes.
    TooLarge {
        shifts: u32,
    },
    /// The disk of this name is the next disk of `needs` items and has fewer slots, and it is the first such disk.
    TooMany {
        disk: Option<Name>,
        needs: u32,
        slots: u32,
    },
    /// Some item is to go to another disk, and no slot is free.
    NoFreeSlot,
    /// No disk has this name.
    NoDisk {
        name: Name,
    },
    /// The disk has `items` items, and the other disks have only `free` free slots together.
    NoRoom {
        items: u32,
        free: u32,
    },
}

impl InputRefusal {
    ghost use Rattle.mig_words.specs.Outcomes.{input_code};

    /// The number of the status.
    fn code(&self) -> u8
        ensures { result ≡ input_code self.now }
    {
        match self {
            InputRefusal::Blamed { blame: _, name: _ } => 1,
            InputRefusal::Refused {
                file: _,
                row: _,
                why: _,
            } => 3,
            InputRefusal::NotSpelled { text, line: _ } => text.code(),
            InputRefusal::TooLarge { shifts: _ } => 11,
            InputRefusal::TooMany {
                disk: _,
                needs: _,
                slots: _,
            } => 13,
            InputRefusal::NoFreeSlot => 13,
            InputRefusal::NoDisk { name: _ } => 14,
            InputRefusal::NoRoom { items: _, free: _ } => 14,
        }
    }
}

/// Why what a store holds doesn't let a command begin, with what its text shows.
#[derive(Clone, Copy)]
pub enum StoreRefusal {
    /// The journal says that this plan is being carried out, or was; for `fill`, that any is.
    Started,
    /// The journal says so of another plan: `kept` is its digest, `ours` that of this plan.
    OtherPlan { kept: [u8; 32], ours: [u8; 32] },
    /// The journal says that no plan is being carried out.
    NotStarted,
    /// The slot where this item is listed doesn't name it.
    NotThere { item: Option<Name> },
    /// A slot of this disk is used that should be free. Slots count from 0.
    Occupied { disk: Option<Name>, slot: u32 },
}

impl StoreRefusal {
    ghost use Rattle.mig_words.specs.Outcomes.{store_code};

    /// The number of the status.
    fn code(&self) -> u8
        ensures { result ≡ store_code self.now }
    {
        match self {
            StoreRefusal::Started => 8,
            StoreRefusal::OtherPlan { kept: _, ours: _ } => 8,
            StoreRefusal::NotStarted => 8,
            StoreRefusal::NotThere { item: _ } => 9,
            StoreRefusal::Occupied { disk: _, slot: _ } => 9,
        }
    }
}

/// Why a command isn't done.
#[derive(Clone, Copy)]
pub enum CommandError {
    /// The words are no command in its listed form.
    Unlisted,
    /// A load or a save failed.
    FolderFault,
    /// The store failed.
    StoreFault,
    /// Memory was refused.
    Memory,
    /// A file isn't there: that of the word with this place among those that the command loads, from 0.
    NoFile { place: usize },
    /// Something is wrong with what the command was given.
    Found(InputRefusal),
    /// What the store holds doesn't let the command begin.
    Refusal(StoreRefusal),
}

impl CommandError {
    ghost use Rattle.std.specs.Prelude.{List, ℕ};
    ghost use Rattle.mig_words.specs.Outcomes.{code, outcome_of};

    /// The number of the status.
    pub fn code(&self) -> u8
        ensures { (names : List (List ℕ)) → result ≡ code (outcome_of names self.now) }
    {
        match self {
            CommandError::Unlisted => 2,
            CommandError::FolderFault => 4,
            CommandError::StoreFault => 5,
            CommandError::Memory => 7,
            CommandError::NoFile { place: _ } => 16,
            CommandError::Found(finding) => finding.code(),
            CommandError::Refusal(refusal) => refusal.code(),
        }
    }
}

impl From<AllocError> for CommandError {
    ghost use Rattle.mig_words.specs.declared.endings.CommandError.TheVariants as ending;

    ghost from_gives = { λ _ e. e ≡ ending.Memory };

    fn from(_error: AllocError) -> Self {
        CommandError::Memory
    }
}

impl<T: Drop> From<AllocFailed<T>> for CommandError {
    ghost use Rattle.mig_words.specs.declared.endings.CommandError.TheVariants as ending;

    ghost from_gives = { λ _ e. e ≡ ending.Memory };

    fn from(_error: AllocFailed<T>) -> Self {
        CommandError::Memory
    }
}

impl From<SaveFailed> for CommandError {
    ghost use Rattle.mig_words.specs.declared.endings.CommandError.TheVariants as ending;

    ghost from_gives = { λ _ e. e ≡ ending.FolderFault };

    fn from(_error: SaveFailed) -> Self {
        CommandError::FolderFault
    }
}

impl From<InputError> for CommandError {
    ghost use Rattle.mig_words.specs.Endings.{error_of};

    ghost from_gives = { λ error e. e ≡ error_of error };

    fn from(error: InputError) -> Self {
        match error {
            InputError::Refused { file, row, why } => {
                CommandError::Found(InputRefusal::Refused { file, row, why })
            }
            InputError::Memory => CommandError::Memory,
        }
    }
}
