//! What a certificate states, counted again.
ghost use Rattle.std.specs.Prelude.{◌≡◌, ◌&&◌, ℕ, ◌+◌, ◌<◌, ◌≤◌, ◌==◌, All, Bool, IfOk, false, true, length, not, slice_index_or};
ghost use Rattle.std.specs.List.{list_any};
ghost use Rattle.mig_base.specs.Bounding.{BoundFits, bound_value, class_of, counted_load, counted_value, has, limit_sum, quotient, set_value, stated_load};
ghost use Rattle.mig_base.specs.Certificates.{IsOfKind};
ghost use Rattle.mig_base.specs.DiskNumbers.{IsDiskSet, numbers};
ghost use Rattle.mig_base.specs.InputLists.{is_duplex};
ghost use Rattle.mig_base.specs.Transfers.{inside, transfer_graph, transfers};
ghost use Rattle.mig_check.specs.Counts.{AreLoadsOf};
ghost use Rattle.mig_check.specs.Parts.{part_load, part_value};
ghost use Rattle.mig_check.specs.declared.parts.Part.TheVariants.{Both, Leaving, Reaching};

use crate::loads::{count_loads, find_class, find_quotient};
use crate::parts::{Part, part_limit};
use mig_base::{Bound, Class, DiskId, DiskSet, Input, Side};
use std::alloc::{AllocError, Global};

/// The load or the inside of a bound, and its value.
#[derive(Clone, Copy)]
pub struct BoundNumbers {
    pub load: u32,
    pub value: u32,
}

/// The numbers of a certificate besides its rounds.
#[derive(Clone, Copy)]
pub struct Counted {
    pub quotient: u32,
    pub class: Class,
    pub shown: BoundNumbers,
}

/// What a bound states.
pub fn stated(bound: &Bound) -> BoundNumbers
    ensures load { result.load ≡ stated_load bound.now }
    ensures value { result.value ≡ bound_value bound.now }
{
    match bound {
        Bound::Nothing => BoundNumbers { load: 0, value: 0 },
        Bound::OfDisk { load, value, .. } | Bound::OfSide { load, value, .. } => BoundNumbers {
            load: *load,
            value: *value,
        },
        Bound::OfSet { inside, value, .. } => BoundNumbers {
            load: *inside,
            value: *value,
        },
    }
}

/// What is counted of the input, and of the disks that the bound names.
pub fn count_cert(alloc: Global, input: &Input, bound: &Bound) -> Result<Counted, AllocError>
    requires fits { BoundFits (transfer_graph input.now) bound.now }
    requires kind { IsOfKind (is_duplex input.now.disks) bound.now }
    ensures quotient { IfOk result (λ c. c.quotient ≡ quotient (transfer_graph input.now)) }
    ensures class { IfOk result (λ c. c.class ≡ class_of (transfer_graph input.now)) }
    ensures load { IfOk result (λ c. c.shown.load ≡ counted_load (transfer_graph input.now) bound.now) }
    ensures value { IfOk result (λ c. c.shown.value ≡ counted_value (transfer_graph input.now) bound.now) }
{
    input.keeps_rules();
    if input.duplex() {
        return count_duplex(alloc, input, bound);
    }
    let loads = count_loads(alloc, Part::Both, input)?;
    let shown = count_bound(alloc, input, &loads, bound)?;
    Ok(Counted {
        quotient: find_quotient(Part::Both, input, &loads),
        class: find_class(input, &loads),
        shown,
    })
}

/// The same of an input whose disks have an outgoing and an incoming limit.
fn count_duplex(alloc: Global, input: &Input, bound: &Bound) -> Result<Counted, AllocError>
    requires duplex { is_duplex input.now.disks ≡ true }
    requires fits { BoundFits (transfer_graph input.now) bound.now }
    requires kind { IsOfKind true bound.now }
    ensures quotient { IfOk result (λ c. c.quotient ≡ quotient (transfer_graph input.now)) }
    ensures class { IfOk result (λ c. c.class ≡ class_of (transfer_graph input.now)) }
    ensures load { IfOk result (λ c. c.shown.load ≡ counted_load (transfer_graph input.now) bound.now) }
    ensures value { IfOk result (λ c. c.shown.value ≡ counted_value (transfer_graph input.now) bound.now) }
{
    input.keeps_rules();
    let outgoing = count_loads(alloc, Part::Leaving, input)?;
    let incoming = count_loads(alloc, Part::Reaching, input)?;
    let leaving = find_quotient(Part::Leaving, input, &outgoing);
    let reaching = find_quotient(Part::Reaching, input, &incoming);
    Ok(Counted {
        quotient: leaving.max(reaching),
        class: Class::Duplex,
        shown: count_side(input, &outgoing, &incoming, bound),
    })
}

/// What is counted of the side that a bound names.
fn count_side(input: &Input, outgoing: &[u32], incoming: &[u32], bound: &Bound) -> BoundNumbers
    requires fits { BoundFits (transfer_graph input.now) bound.now }
    requires kind { IsOfKind true bound.now }
    requires outgoing { AreLoadsOf Leaving input.now outgoing.now }
    requires incoming { AreLoadsOf Reaching input.now incoming.now }
    ensures load { result.load ≡ counted_load (transfer_graph input.now) bound.now }
    ensures value { result.value ≡ counted_value (transfer_graph input.now) bound.now }
{
    match bound {
        Bound::Nothing => BoundNumbers { load: 0, value: 0 },
        Bound::OfSide { disk, side, .. } => match side {
            Side::Outgoing => count_disk(Part::Leaving, input, outgoing, *disk),
            Side::Incoming => count_disk(Part::Reaching, input, incoming, *disk),
        },
        Bound::OfDisk { .. } => unreachable!(),
        Bound::OfSet { .. } => unreachable!(),
    }
}

/// What is counted of the disks that the bound names, where limits are joint.
fn count_bound(
    alloc: Global,
    input: &Input,
    loads: &[u32],
    bound: &Bound,
) -> Result<BoundNumbers, AllocError>
    requires joint { is_duplex input.now.disks ≡ false }
    requires fits { BoundFits (transfer_graph input.now) bound.now }
    requires kind { IsOfKind false bound.now }
    requires loads { AreLoadsOf Both input.now loads.now }
    ensures load { IfOk result (λ s. s.load ≡ counted_load (transfer_graph input.now) bound.now) }
    ensures value { IfOk result (λ s. s.value ≡ counted_value (transfer_graph input.now) bound.now) }
{
    input.keeps_rules();
    match bound {
        Bound::Nothing => Ok(BoundNumbers { load: 0, value: 0 }),
        Bound::OfDisk { disk, .. } => Ok(count_disk(Part::Both, input, loads, *disk)),
        Bound::OfSide { .. } => unreachable!(),
        Bound::OfSet { disks, .. } => count_set(alloc, input, disks),
    }
}

/// How many moves count at a disk, and the rounds that it needs for them.
fn count_disk(part: Part, input: &Input, loads: &[u32], disk: DiskId) -> BoundNumbers
    requires there { disk.0 < length input.now.disks }
    requires loads { AreLoadsOf part input.now loads.now }
    ensures load { result.load ≡ part_load part disk.0 (transfers input.now) }
    ensures value { result.value ≡ part_value part (transfer_graph input.now) disk.0 }
{
    input.keeps_rules();
    let load = loads[disk.0 as usize];
    BoundNumbers {
        load,
        value: load.div_ceil(part_limit(part, input.disks()[disk.0 as usize].limits)),
    }
}

/// The moves inside a set, and the rounds that they need: a round holds at most half the sum of the
/// set's limits of them.
fn count_set(alloc: Global, input: &Input, set: &DiskSet) -> Result<BoundNumbers, AllocError>
    requires { All (λ disk. disk.0 < length input.now.disks) set.now }
    ensures load { IfOk result (λ s. s.load ≡ inside (numbers set.now) (transfers input.now)) }
    ensures value { IfOk result (λ s. s.value ≡ set_value (transfer_graph input.now) (numbers set.now)) }
{
    let mut members = vec![in alloc; false; input.disks().len()]?;
    mark(&mut members, set.ids());
    let inside = count_inside(input, &members, set);
    let half = sum_limits(input, set) / 2;
    Ok(BoundNumbers {
        load: inside,
        value: if half == 0 { 0 } else { inside.div_ceil(half) },
    })
}

/// Marks the disks of a set, where none is marked yet.
fn mark(members: &mut [bool], ids: &[DiskId])
    requires none { All (λ m. m ≡ false) members.old }
    requires there { All (λ disk. disk.0 < length members.old) ids.now }
    ensures { (v : ℕ) → v < length members.new → slice_index_or members.new v false ≡ has (numbers ids.now) v }
{
    for disk in ids {
        members[disk.0 as usize] = true;
    }
}

/// The moves with both ends in the set.
fn count_inside(input: &Input, members: &[bool], set: &DiskSet) -> u32
    requires len { length members.now ≡ length input.now.disks }
    requires marked { (v : ℕ) → v < length members.now → slice_index_or members.now v false ≡ has (numbers set.now) v }
    ensures { result ≡ inside (numbers set.now) (transfers input.now) }
{
    let next = input.next();
    let mut inside = 0;
    for (i, spot) in input.now().iter().enumerate() {
        if moves_inside(members, spot.disk, next[i]) {
            inside += 1;
        }
    }
    inside
}

/// Whether an item with these disks moves from one marked disk to another.
fn moves_inside(members: &[bool], from: DiskId, to: DiskId) -> bool
    requires from { from.0 < length members.now }
    requires to { to.0 < length members.now }
    ensures { result ≡ (not (from.0 == to.0) && (slice_index_or members.now from.0 false && slice_index_or members.now to.0 false)) }
{
    from != to && members[from.0 as usize] && members[to.0 as usize]
}

/// The sum of the limits of the set's disks.
fn sum_limits(input: &Input, set: &DiskSet) -> u32
    requires { All (λ disk. disk.0 < length input.now.disks) set.now }
    ensures { result ≡ limit_sum (transfer_graph input.now) (numbers set.now) }
{
    let disks = input.disks();
    let mut sum = 0;
    for disk in set.ids() {
        sum += disks[disk.0 as usize].limits.most_ends();
    }
    sum
}
