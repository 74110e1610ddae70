//! Pieces of printed texts.
ghost use Rattle.std.specs.Prelude.{◌≡◌, ◌<◌, ◌++◌, ◌∷◌, [], length, OnOk};
ghost use Rattle.std.specs.Fmt.{decimal};
ghost use Rattle.mig_base.specs.Texts.{disk_name, words};
ghost use Rattle.mig_text.specs.Prints.{spot_text};

use mig_base::{DiskId, Input, Spot};
use std::alloc::AllocError;

/// Adds a number in decimal, digit by digit. An error is want of memory.
pub fn push_number(out: &mut Vec<u8>, number: u32) -> Result<(), AllocError>
    ensures { OnOk result (out.new.items ≡ out.old.items ++ decimal number) }
{
    if number >= 10 {
        push_number(out, number / 10)?;
    }
    out.push(b'0' + (number % 10) as u8)?;
    Ok(())
}

/// Adds a disk's name. An error is want of memory.
pub fn push_disk(out: &mut Vec<u8>, input: &Input, disk: DiskId) -> Result<(), AllocError>
    requires { disk.0 < length input.now.disks }
    ensures { OnOk result (out.new.items ≡ out.old.items ++ disk_name input.now disk.0) }
{
    out.extend_from_slice(input.disks()[disk.0 as usize].name.bytes())
}

/// Adds a line of a word and a number. An error is want of memory.
pub fn push_count(out: &mut Vec<u8>, word: &[u8], count: u32) -> Result<(), AllocError>
    ensures { OnOk result (out.new.items ≡ out.old.items ++ (words (word.now ∷ decimal count ∷ []) ++ 10 ∷ [])) }
{
    out.extend_from_slice(word)?;
    out.push(b' ')?;
    push_number(out, count)?;
    out.push(b'\n')?;
    Ok(())
}

/// Adds a spot's disk and its slot, each after the separator.
pub(crate) fn push_spot(
    out: &mut Vec<u8>,
    input: &Input,
    separator: u8,
    spot: Spot,
) -> Result<(), AllocError>
    requires { spot.disk.0 < length input.now.disks }
    ensures { OnOk result (out.new.items ≡ out.old.items ++ spot_text input.now separator spot) }
{
    out.push(separator)?;
    push_disk(out, input, spot.disk)?;
    out.push(separator)?;
    push_number(out, spot.slot)
}
