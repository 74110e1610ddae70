//! The size of the plans that are drilled.

/// The greatest number of shifts of a plan that is drilled.
pub const MAX_DRILL_SHIFTS: u32 = 256;
