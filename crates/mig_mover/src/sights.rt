//! What stands where an item is listed.

/// What stands where an item is listed.
#[derive(Clone, Copy, Debug, PartialEq, Eq)]
pub struct Sight {
    /// Whether the slot's header names the item.
    pub named: bool,
    /// SHA-256 of the slot's bytes.
    pub digest: [u8; 32],
}
