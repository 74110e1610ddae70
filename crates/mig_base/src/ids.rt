//! Places in lists, spots and shifts.

/// A disk, by its place in the list of disks.
#[derive(Clone, Copy, Debug, PartialEq, Eq, Hash)]
pub struct DiskId(pub u32);

/// An item, by its place in the list of items.
#[derive(Clone, Copy, Debug, PartialEq, Eq, Hash)]
pub struct ItemId(pub u32);

/// An edge of the transfer graph, by its place in the list of edges.
#[derive(Clone, Copy, Debug, PartialEq, Eq)]
pub struct EdgeId(pub u32);

/// A slot of a disk. Slots count from 0.
#[derive(Clone, Copy, Debug, PartialEq, Eq, Hash)]
pub struct Spot {
    pub disk: DiskId,
    pub slot: u32,
}

/// One item's way from one spot to another.
#[derive(Clone, Copy, Debug, PartialEq, Eq)]
pub struct Shift {
    pub item: ItemId,
    pub from: Spot,
    pub to: Spot,
}

/// A copy of a disk in a colouring, by its place.
#[derive(Clone, Copy, Debug, PartialEq, Eq)]
pub struct CopyId(pub u32);

/// A colour of a colouring: a round before its number is settled.
#[derive(Clone, Copy, Debug, PartialEq, Eq)]
pub struct Colour(pub u32);
