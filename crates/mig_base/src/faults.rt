//! Why a file is refused.

use crate::names::Name;

/// One of the three files that an input is read from.
#[derive(Clone, Copy, Debug, PartialEq, Eq)]
pub enum FileKind {
    Disks,
    Now,
    Next,
}

/// Why a file is refused.
#[derive(Clone, Copy, Debug, PartialEq, Eq)]
pub enum Why {
    /// The first record isn't the file's header.
    BadHeader,
    /// The row has too few or too many fields.
    BadWidth,
    /// A field that names a disk or an item is no name.
    BadName,
    /// A field that is a number isn't 1 to 10 digits.
    BadNumber,
    /// A limit or the slots of a disk are out of range.
    OutOfRange,
    /// An earlier row has the disk.
    DuplicateDisk,
    /// An earlier row has the item.
    DuplicateItem,
    /// The disks file doesn't list the disk.
    UnknownDisk,
    /// The slot isn't below the disk's slots.
    SlotTooHigh,
    /// An earlier row has the spot.
    SlotTaken,
    /// The file has more rows than it may.
    TooManyRows,
    /// The file has more bytes than it may.
    TooLong,
    /// The now file doesn't list the item.
    NotInNow,
    /// The next file doesn't list the item.
    NotInNext,
    /// The items on the disk and those that come to it are more than its slots.
    NoRoom { disk: Name, needs: u32, slots: u32 },
}
