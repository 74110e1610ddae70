//! Where the shifts of a plan take each item.
ghost use Rattle.std.specs.Prelude.{◌≡◌, ◌<◌, ◌≤◌, ◌++◌, List, [], All, IfOk, OnOk, length, nat_le, vec_len, slice_index_or, ℕ};
ghost use Rattle.std.specs.declared.alloc.Global.{Global};
ghost use Rattle.std.specs.declared.vec.Vec.{Vec};
ghost use Rattle.mig_base.specs.declared.limits.TheConstants.{MAX_ROUNDS};
ghost use Rattle.mig_base.specs.InputLists.{IsInput};
ghost use Rattle.mig_base.specs.Running.{Runs};
ghost use Rattle.mig_jobs.specs.Stops.{waypoints_by, last_spot, AreWaypoints};
ghost use Rattle.mig_jobs.specs.declared.stops.Waypoint.{Waypoint};

use mig_base::{Input, Plan, Round, Shift, Spot};
use std::alloc::{AllocError, Global};

/// Where a round takes an item.
#[derive(Clone, Copy, PartialEq, Eq)]
pub struct Waypoint {
    pub round: u32,
    pub spot: Spot,
}

/// The spot of the last of an item's stops that are those of the first rounds.
pub(crate) fn spot_until(stops: &[Waypoint], round: u32) -> Option<Spot>
    ensures { (before after : List Waypoint) → stops.now ≡ before ++ after → All (λ s. s.round ≤ round) before → All (λ s. round < s.round) after → result ≡ last_spot before }
{
    let count = stops.partition_point(
        |s: &Waypoint| -> bool
            ensures { result ≡ nat_le s.now.round round }
        { s.round <= round },
    );
    if count == 0 {
        return None;
    }
    Some(stops[count - 1].spot)
}

// Adds the stops of a round's shifts.
fn add_stops(rows: &mut Vec<Vec<Waypoint>>, shifts: &[Shift], round: u32) -> Result<(), AllocError>
    requires { All (λ s. s.item.0 < length rows.old.items) shifts.now }
    ensures len { length rows.new.items ≡ length rows.old.items }
    ensures rows { OnOk result ((item : ℕ) (d : Vec Waypoint Global) → item < length rows.new.items → (slice_index_or rows.new.items item d).items ≡ (slice_index_or rows.old.items item d).items ++ waypoints_by round shifts.now item) }
{
    for s in shifts {
        rows[s.item.0 as usize].push(Waypoint { round, spot: s.to })?;
    }
    Ok(())
}

// No stops for so many items.
fn empty_stops(alloc: Global, items: usize) -> Result<Vec<Vec<Waypoint>>, AllocError>
    ensures len { IfOk result (λ rows. vec_len rows ≡ items) }
    ensures empty { IfOk result (λ rows. All (λ row. row.items ≡ []) rows.items) }
{
    let mut rows = Vec::with_capacity(alloc, items)?;
    for _ in 0..items {
        rows.push(Vec::new(alloc))?;
    }
    Ok(rows)
}

/// Where the shifts of a plan take each item.
pub(crate) fn stops_of(
    alloc: Global,
    input: &Input,
    plan: &Plan,
) -> Result<Vec<Vec<Waypoint>>, AllocError>
    requires runs { Runs input.now plan.now }
    requires few { length plan.now ≤ MAX_ROUNDS }
    ensures { IfOk result (λ rows. AreWaypoints input.now plan.now (length plan.now) rows.items) }
{
    input.keeps_rules();
    let mut rows = empty_stops(alloc, input.items().len())?;
    let rounds = plan.rounds();
    for k in 0..rounds.len() {
        add_stops(&mut rows, rounds[k].shifts(), k as u32 + 1)?;
    }
    Ok(rows)
}
