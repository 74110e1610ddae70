//! What a session is asked to do.

use mig_base::ItemId;

/// What a session is asked to do.
#[derive(Clone, Copy, Debug, PartialEq, Eq)]
pub enum Order {
    /// Read an item, and reply with the digest of its bytes.
    Read { item: ItemId },
    /// Make so many steps, or as many as are left.
    Step { count: u32 },
}
