//! What a crash leaves of files in memory.

/// What a crash leaves of each byte that isn't settled, and under each name that isn't.
#[derive(Clone, Copy, Debug, PartialEq, Eq)]
pub enum FilePick {
    /// The bytes that the device had at the last sync, of the file that it had under the name.
    Old,
    /// The bytes last written, of the file that has the name now.
    New,
    /// Of the file that has the name now the new bytes in the first half of each 4,096, and the old ones in the second.
    Front,
    /// Of the file that the device had under the name the new bytes in the second half of each 4,096, and the old ones in the first.
    Back,
    /// Of the file that has the name now bytes that are all 1.
    Ones,
}
