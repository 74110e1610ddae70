//! The most that files, inputs and plans may have.

/// The most bytes of a file.
pub const MAX_FILE_BYTES: usize = 16_777_216;

/// The most disks of an input.
pub const MAX_DISKS: usize = 1_024;

/// The greatest limit of a disk in a round: of a joint one, and of each of two.
pub const MAX_LIMIT: u32 = 1_024;

/// The most slots of a disk. Slots count from 0.
pub const MAX_SLOTS: u32 = 65_536;

/// The most items of an input.
pub const MAX_ITEMS: usize = 65_536;

/// The most shifts of a round: one for each item.
pub const MAX_SHIFTS: usize = MAX_ITEMS;

/// The most rounds of a plan.
pub const MAX_ROUNDS: usize = 131_072;
