//! The text of next disks.
ghost use Rattle.std.specs.Prelude.{◌≡◌, ◌<◌, ◌++◌, ◌∷◌, [], All, length, map, IfOk, OnOk};
ghost use Rattle.std.specs.List.{zip};
ghost use Rattle.mig_base.specs.declared.ids.DiskId.{DiskId};
ghost use Rattle.mig_base.specs.NextTexts.{NextText, next_line};
ghost use Rattle.mig_base.specs.Texts.{text_of_lines};

use crate::printing::push_disk;
use mig_base::{DiskId, Input, Name};
use std::alloc::{AllocError, Global};

/// The text of next disks: the header `item,disk`, and a line for each item with its disk.
/// An error is want of memory.
pub fn print_next(alloc: Global, input: &Input, next: &[DiskId]) -> Result<Vec<u8>, AllocError>
    requires each { length next.now ≡ length input.now.items }
    requires there { All (λ (disk : DiskId). disk.0 < length input.now.disks) next.now }
    ensures { IfOk result (λ text. NextText input.now next.now text.items) }
{
    let mut out = Vec::new(alloc);
    out.extend_from_slice(b"item,disk\n")?;
    push_next(&mut out, input, next)?;
    Ok(out)
}

/// Adds a line for each item.
fn push_next(out: &mut Vec<u8>, input: &Input, next: &[DiskId]) -> Result<(), AllocError>
    requires each { length next.now ≡ length input.now.items }
    requires there { All (λ (disk : DiskId). disk.0 < length input.now.disks) next.now }
    ensures { OnOk result (out.new.items ≡ out.old.items ++ text_of_lines (map (next_line input.now) (zip input.now.items next.now))) }
{
    let items = input.items();
    for k in 0..items.len() {
        push_item(out, input, &items[k], next[k])?;
    }
    Ok(())
}

/// Adds an item's line.
fn push_item(out: &mut Vec<u8>, input: &Input, item: &Name, disk: DiskId) -> Result<(), AllocError>
    requires { disk.0 < length input.now.disks }
    ensures { OnOk result (out.new.items ≡ out.old.items ++ (next_line input.now (item.now, disk) ++ 10 ∷ [])) }
{
    out.extend_from_slice(item.bytes())?;
    out.push(b',')?;
    push_disk(out, input, disk)?;
    out.push(b'\n')?;
    Ok(())
}
