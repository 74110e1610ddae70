//! The loads of disks, or of their sides, and what follows from them: the greatest quotient and the class.
ghost use Rattle.std.specs.Prelude.{◌≡◌, ◌≢◌, ◌↔◌, ◌&&◌, ℕ, ◌+◌, ◌-◌, ◌^◌, ◌<◌, ◌≤◌, All, IfOk, IsTrue, if◌then◌else◌, false, length, not, slice_index, ◌==◌};
ghost use Rattle.mig_base.specs.Bounding.{IsEven, class_of};
ghost use Rattle.mig_base.specs.InputLists.{is_duplex};
ghost use Rattle.mig_base.specs.Transfers.{touches, transfer_graph};
ghost use Rattle.mig_check.specs.Counts.{AreLoadsOf};
ghost use Rattle.mig_check.specs.Parts.{counts_at, part_quotient};
ghost use Rattle.mig_check.specs.declared.parts.Part.TheVariants.{Both};

use crate::parts::{Part, part_limit};
use mig_base::{Class, DiskId, Input};
use std::alloc::{AllocError, Global};

/// For each disk how many moves count at it.
pub fn count_loads(alloc: Global, part: Part, input: &Input) -> Result<Vec<u32>, AllocError>
    ensures { IfOk result (λ loads. AreLoadsOf part input.now loads.items) }
{
    let mut loads = vec![in alloc; 0; input.disks().len()]?;
    fill_loads(part, input, &mut loads);
    Ok(loads)
}

/// Counts the moves where they count, where nothing is counted yet.
fn fill_loads(part: Part, input: &Input, loads: &mut [u32])
    requires len { length loads.old ≡ length input.now.disks }
    requires zero { All (λ n. n ≡ 0) loads.old }
    ensures { AreLoadsOf part input.now loads.new }
{
    let next = input.next();
    input.keeps_rules();
    for (i, spot) in input.now().iter().enumerate() {
        count_move(part, loads, spot.disk, next[i]);
    }
}

/// Counts an item where it counts, if its two disks differ.
fn count_move(part: Part, loads: &mut [u32], from: DiskId, to: DiskId)
    requires from { from.0 < length loads.old }
    requires to { to.0 < length loads.old }
    requires room { All (λ n. n < 2 ^ 32 - 1) loads.old }
    ensures { (v : ℕ) → v < length loads.new → slice_index loads.new v
        ≡ slice_index loads.old v + (if not (from.0 == to.0) && counts_at part v (record { leaves = from.0; reaches = to.0 }) then 1 else 0) }
{
    if from == to {
        return;
    }
    match part {
        Part::Both => count_two(loads, from, to),
        Part::Leaving => loads[from.0 as usize] += 1,
        Part::Reaching => loads[to.0 as usize] += 1,
    }
}

/// Counts an item at its two disks.
fn count_two(loads: &mut [u32], from: DiskId, to: DiskId)
    requires from { from.0 < length loads.old }
    requires to { to.0 < length loads.old }
    requires apart { from.0 ≢ to.0 }
    requires room { All (λ n. n < 2 ^ 32 - 1) loads.old }
    ensures { (v : ℕ) → v < length loads.new → slice_index loads.new v
        ≡ slice_index loads.old v + (if touches v (record { leaves = from.0; reaches = to.0 }) then 1 else 0) }
{
    loads[from.0 as usize] += 1;
    loads[to.0 as usize] += 1;
}

/// The greatest number of rounds that a disk needs for the moves that count at it, and 0 without moves.
pub fn find_quotient(part: Part, input: &Input, loads: &[u32]) -> u32
    requires { AreLoadsOf part input.now loads.now }
    ensures { result ≡ part_quotient part (transfer_graph input.now) }
{
    input.keeps_rules();
    let mut greatest = 0;
    for (v, disk) in input.disks().iter().enumerate() {
        greatest = greatest.max(loads[v].div_ceil(part_limit(part, disk.limits)));
    }
    greatest
}

/// Whether each disk that takes part has an even limit.
fn all_even(input: &Input, loads: &[u32]) -> bool
    requires joint { is_duplex input.now.disks ≡ false }
    requires loads { AreLoadsOf Both input.now loads.now }
    ensures { IsTrue result ↔ IsEven (transfer_graph input.now) }
{
    input.keeps_rules();
    for (v, disk) in input.disks().iter().enumerate() {
        let load = loads[v];
        if load > 0 && disk.limits.most_ends() % 2 != 0 {
            return false;
        }
    }
    true
}

/// The class of an input with joint limits.
pub fn find_class(input: &Input, loads: &[u32]) -> Class
    requires joint { is_duplex input.now.disks ≡ false }
    requires loads { AreLoadsOf Both input.now loads.now }
    ensures { result ≡ class_of (transfer_graph input.now) }
{
    if all_even(input, loads) {
        Class::Even
    } else {
        Class::General
    }
}
