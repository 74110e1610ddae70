//! The input that the numbers stand for.
ghost use Rattle.std.specs.Prelude.{◌≡◌, ◌≤◌, ◌<◌, ◌⊎◌, ◌↔◌, IfErr, IfOk, IsTrue, MatchOption, length, map};
ghost use Rattle.std.specs.List.{range_with_len};
ghost use Rattle.mig_base.specs.Targets.{IsRoomy};
ghost use Rattle.mig_numbers.specs.Numbers.{disk_in, input_of, limits_of, next_of, spot_of};
ghost use Rattle.mig_numbers.specs.Refusals.{AreDisksSound, AreFew, AreItemsSound, AreSound, AreThere, IsDiskFault, IsDiskSound, IsFirstItemFault, IsItemFault};
ghost use Rattle.mig_numbers.specs.Refusals.{IsItemSound, IsNumbersRefusal, IsRoomFault, IsSizeFault, IsUnfit};

use crate::numbers::{DiskNumbers, ItemNumbers, NumbersRefusal};
use mig_base::{
    Disk, DiskId, Input, Limits, MAX_DISKS, MAX_ITEMS, MAX_LIMIT, MAX_SLOTS, Spot, Why,
};
use mig_csv::{InputError, check_room};
use mig_gen::{make_items, numbered};
use mig_keys::KeyTable;
use std::alloc::{AllocError, Global};

/// Whether there are too many disks or items.
fn size_fault(disks: &[DiskNumbers], items: &[ItemNumbers]) -> Option<NumbersRefusal>
    ensures { MatchOption result (AreFew disks.now items.now) (IsSizeFault disks.now items.now) }
{
    if disks.len() > MAX_DISKS {
        return Some(NumbersRefusal::TooManyDisks);
    }
    if items.len() > MAX_ITEMS {
        return Some(NumbersRefusal::TooManyItems);
    }
    None
}

/// The limits of a disk.
fn limits_of(split: bool, disk: DiskNumbers) -> Limits
    ensures { result ≡ limits_of split disk }
{
    if split {
        Limits::Split {
            outgoing: disk.out_limit,
            incoming: disk.in_limit,
        }
    } else {
        Limits::Joint {
            limit: disk.out_limit,
        }
    }
}

/// Whether a disk's numbers are in range.
fn is_disk_sound(split: bool, disk: DiskNumbers) -> bool
    ensures { IsTrue result ↔ IsDiskSound split disk }
{
    let outgoing = 1 <= disk.out_limit && disk.out_limit <= MAX_LIMIT;
    let incoming = !split || (1 <= disk.in_limit && disk.in_limit <= MAX_LIMIT);
    outgoing && incoming && 1 <= disk.slots && disk.slots <= MAX_SLOTS
}

/// The first disk whose numbers are out of range.
fn disk_fault(split: bool, disks: &[DiskNumbers]) -> Option<NumbersRefusal>
    requires { length disks.now ≤ MAX_DISKS }
    ensures { MatchOption result (AreDisksSound split disks.now (length disks.now)) (IsDiskFault split disks.now) }
{
    for (k, disk) in disks.iter().enumerate() {
        if !is_disk_sound(split, *disk) {
            return Some(NumbersRefusal::OutOfRange { disk: k as u32 });
        }
    }
    None
}

/// The spot of an item.
fn spot_of(item: ItemNumbers) -> Spot
    ensures { result ≡ spot_of item }
{
    Spot {
        disk: DiskId(item.disk),
        slot: item.slot,
    }
}

/// What is wrong with the item at a place, where these spots are taken.
fn item_fault(
    disks: &[DiskNumbers],
    taken: &KeyTable<Spot>,
    item: ItemNumbers,
    place: u32,
) -> Option<NumbersRefusal>
    ensures { MatchOption result (IsItemSound disks.now taken.now item) (IsItemFault disks.now taken.now item place) }
{
    if item.disk as usize >= disks.len() {
        return Some(NumbersRefusal::UnknownDisk { item: place });
    }
    if item.slot >= disks[item.disk as usize].slots {
        return Some(NumbersRefusal::SlotTooHigh { item: place });
    }
    if taken.contains(&spot_of(item)) {
        return Some(NumbersRefusal::SlotTaken { item: place });
    }
    if item.next_disk as usize >= disks.len() {
        return Some(NumbersRefusal::UnknownNext { item: place });
    }
    None
}

/// Whether each item is where it may be and goes where it may go, or why not, by the first item of which that isn't so.
fn check_items(
    alloc: Global,
    disks: &[DiskNumbers],
    items: &[ItemNumbers],
) -> Result<(), NumbersRefusal>
    requires { length items.now ≤ MAX_ITEMS }
    ensures sound { IfOk result (λ _. AreItemsSound disks.now items.now (length items.now)) }
    ensures fault { IfErr result (λ why. (why ≡ NumbersRefusal.Memory) ⊎ IsFirstItemFault disks.now items.now why) }
{
    let Ok(mut taken) = KeyTable::with_capacity(alloc, items.len()) else {
        return Err(NumbersRefusal::Memory);
    };
    for (k, item) in items.iter().enumerate() {
        if let Some(why) = item_fault(disks, &taken, *item, k as u32) {
            return Err(why);
        }
        if taken.push(spot_of(*item)).is_err() {
            return Err(NumbersRefusal::Memory);
        }
    }
    Ok(())
}

/// The disks.
fn make_disks(alloc: Global, split: bool, disks: &[DiskNumbers]) -> Result<Vec<Disk>, AllocError>
    requires { length disks.now ≤ MAX_DISKS }
    ensures { IfOk result (λ v. v.items ≡ map (disk_in split disks.now) (range_with_len 0 (length disks.now))) }
{
    let mut made = Vec::with_capacity(alloc, disks.len())?;
    for (k, disk) in disks.iter().enumerate() {
        made.push(Disk {
            name: numbered(b'd', k as u32),
            limits: limits_of(split, *disk),
            slots: disk.slots,
        })?;
    }
    Ok(made)
}

/// The items' spots.
fn make_spots(alloc: Global, items: &[ItemNumbers]) -> Result<Vec<Spot>, AllocError>
    ensures { IfOk result (λ v. v.items ≡ map spot_of items.now) }
{
    items.iter().map(|item| spot_of(*item)).collect(alloc)
}

/// The items' next disks.
fn make_next(alloc: Global, items: &[ItemNumbers]) -> Result<Vec<DiskId>, AllocError>
    ensures { IfOk result (λ v. v.items ≡ map next_of items.now) }
{
    items
        .iter()
        .map(|item| DiskId(item.next_disk))
        .collect(alloc)
}

/// The input of numbers that are sound, whether or not there is room.
fn make_input(
    alloc: Global,
    split: bool,
    disks: &[DiskNumbers],
    items: &[ItemNumbers],
) -> Result<Input, AllocError>
    requires few { AreFew disks.now items.now }
    requires disks { AreDisksSound split disks.now (length disks.now) }
    requires items { AreItemsSound disks.now items.now (length items.now) }
    ensures { IfOk result (λ input. input ≡ input_of split disks.now items.now) }
{
    let made = make_disks(alloc, split, disks)?;
    let names = make_items(alloc, items.len() as u32)?;
    let spots = make_spots(alloc, items)?;
    let next = make_next(alloc, items)?;
    Ok(Input::new(made, names, spots, next))
}

/// The first disk that lacks room for what is on it and what comes to it, or want of memory.
fn room_fault(alloc: Global, input: &Input) -> Option<NumbersRefusal>
    ensures { MatchOption result (IsRoomy input.now) (λ why. (why ≡ NumbersRefusal.Memory) ⊎ IsRoomFault input.now why) }
{
    match check_room(alloc, input) {
        Ok(()) => None,
        Err(
            InputError::Refused {
                row,
                why: Why::NoRoom { needs, slots, .. },
                ..
            },
        ) => Some(NumbersRefusal::NoRoom {
            disk: row - 1,
            needs,
            slots,
        }),
        Err(_) => Some(NumbersRefusal::Memory),
    }
}

/// The input that the numbers stand for, whether or not there is room, or the first thing that is wrong with them.
pub(crate) fn read_any(
    alloc: Global,
    split: bool,
    disks: &[DiskNumbers],
    items: &[ItemNumbers],
) -> Result<Input, NumbersRefusal>
    ensures input { IfOk result (λ input. input ≡ input_of split disks.now items.now) }
    ensures there { IfOk result (λ _. AreThere split disks.now items.now) }
    ensures refused { IfErr result (IsUnfit split disks.now items.now) }
{
    if let Some(why) = size_fault(disks, items) {
        return Err(why);
    }
    if let Some(why) = disk_fault(split, disks) {
        return Err(why);
    }
    check_items(alloc, disks, items)?;
    match make_input(alloc, split, disks, items) {
        Ok(input) => Ok(input),
        Err(_) => Err(NumbersRefusal::Memory),
    }
}

/// The input that the numbers stand for, or the first thing that is wrong with them.
pub(crate) fn read_numbers(
    alloc: Global,
    split: bool,
    disks: &[DiskNumbers],
    items: &[ItemNumbers],
) -> Result<Input, NumbersRefusal>
    ensures input { IfOk result (λ input. input ≡ input_of split disks.now items.now) }
    ensures sound { IfOk result (λ _. AreSound split disks.now items.now) }
    ensures refused { IfErr result (IsNumbersRefusal split disks.now items.now) }
{
    let input = read_any(alloc, split, disks, items)?;
    match room_fault(alloc, &input) {
        None => Ok(input),
        Some(why) => Err(why),
    }
}
