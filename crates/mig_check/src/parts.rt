//! The ends of transfers that a limit counts.
ghost use Rattle.std.specs.Prelude.{◌≡◌, ◌≤◌};
ghost use Rattle.mig_base.specs.InputLists.{IsInRange};
ghost use Rattle.mig_check.specs.Parts.{part_limit};
ghost use Rattle.mig_base.specs.Transfers.{side_limit};

use mig_base::{Limits, Side};

/// Which ends at a disk a limit counts.
#[derive(Clone, Copy)]
pub enum Part {
    /// All of them, as a joint limit does; a transfer inside one disk counts once.
    Both,
    /// Those that leave the disk, as an outgoing limit does.
    Leaving,
    /// Those that reach the disk, as an incoming limit does.
    Reaching,
}

/// The limit on a part of a disk's ends.
pub fn part_limit(part: Part, limits: Limits) -> u32
    requires { IsInRange limits }
    ensures limit { result ≡ part_limit part limits }
    ensures least { 1 ≤ result }
{
    match part {
        Part::Both => limits.most_ends(),
        Part::Leaving => side_limit(Side::Outgoing, limits),
        Part::Reaching => side_limit(Side::Incoming, limits),
    }
}

/// The limit on a side. A joint limit holds for each.
fn side_limit(side: Side, limits: Limits) -> u32
    ensures { result ≡ side_limit side limits }
{
    match limits {
        Limits::Joint { limit } => limit,
        Limits::Split { outgoing, incoming } => match side {
            Side::Outgoing => outgoing,
            Side::Incoming => incoming,
        },
    }
}
