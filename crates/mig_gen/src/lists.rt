//! The four lists of a made case.
ghost use Rattle.std.specs.Prelude.{◌≡◌, ◌≤◌, ◌<◌, ◌^◌, ◌∷◌, IsTrue, IfOk, map};
ghost use Rattle.std.specs.Char.{is_ascii_alphanumeric};
ghost use Rattle.std.specs.Fmt.{decimal};
ghost use Rattle.std.specs.List.{range_with_len};
ghost use Rattle.mig_base.specs.Naming.{IsName};
ghost use Rattle.mig_gen.specs.ByNumber.{next_at, numbered_spot, other};
ghost use Rattle.mig_gen.specs.MadeCases.{made_disk, made_item};

use itoa::Buffer;
use mig_base::{Disk, DiskId, Limits, Name, Spot};
use std::alloc::{AllocError, Global};

/// The name with these bytes, which are those of a name.
fn name_of(bytes: &[u8]) -> Name
    requires { IsName bytes.now }
    ensures { result ≡ bytes.now }
{
    match Name::read(bytes) {
        Some(name) => name,
        None => unreachable!(),
    }
}

/// The name that is a letter and a number.
pub fn numbered(letter: u8, number: u32) -> Name
    requires { IsTrue (is_ascii_alphanumeric letter) }
    ensures { result ≡ letter ∷ decimal number }
{
    let mut buffer = Buffer::new();
    let digits = buffer.format(number).as_bytes();
    let mut bytes = [letter; 32];
    bytes[1..=digits.len()].copy_from_slice(digits);
    name_of(&bytes[..=digits.len()])
}

/// Disks `d0`, `d1` and so on, of one limit, with so many slots each.
pub fn make_disks(
    alloc: Global,
    disks: u32,
    limit: u32,
    slots: u32,
) -> Result<Vec<Disk>, AllocError>
    ensures { IfOk result (λ made. made.items ≡ map (made_disk limit slots) (range_with_len 0 disks)) }
{
    (0..disks)
        .map(|disk| Disk {
            name: numbered(b'd', disk),
            limits: Limits::Joint { limit },
            slots,
        })
        .collect(alloc)
}

/// Items `i0`, `i1` and so on.
pub fn make_items(alloc: Global, items: u32) -> Result<Vec<Name>, AllocError>
    ensures { IfOk result (λ made. made.items ≡ map made_item (range_with_len 0 items)) }
{
    (0..items).map(|item| numbered(b'i', item)).collect(alloc)
}

/// The spot of each item, where each disk has so many.
pub fn number_spots(alloc: Global, items: u32, on_each: u32) -> Result<Vec<Spot>, AllocError>
    requires { 1 ≤ on_each }
    ensures { IfOk result (λ made. made.items ≡ map (numbered_spot on_each) (range_with_len 0 items)) }
{
    (0..items)
        .map(|item| Spot {
            disk: DiskId(item / on_each),
            slot: item % on_each,
        })
        .collect(alloc)
}

/// The disk with this number among those other than `disk`, from 0.
fn other(disk: u32, number: u32) -> u32
    requires { number < 2 ^ 17 }
    ensures { result ≡ other disk number }
{
    if number < disk { number } else { number + 1 }
}

/// The next disk of each item, where each disk has so many, so many of them for each other disk.
pub fn number_next(
    alloc: Global,
    items: u32,
    on_each: u32,
    per_pair: u32,
) -> Result<Vec<DiskId>, AllocError>
    requires on_each { 1 ≤ on_each }
    requires few { on_each ≤ 2 ^ 16 }
    requires per_pair { 1 ≤ per_pair }
    ensures { IfOk result (λ made. made.items ≡ map (next_at on_each per_pair) (range_with_len 0 items)) }
{
    (0..items)
        .map(|item| DiskId(other(item / on_each, item % on_each / per_pair)))
        .collect(alloc)
}
