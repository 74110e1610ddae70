//! The size of scripts.

/// The most orders of a script.
pub const MAX_ORDERS: usize = 65_536;

/// The most steps that one order asks for.
pub const MAX_STEPS: u32 = 1_000_000;
