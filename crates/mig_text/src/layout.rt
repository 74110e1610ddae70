//! The text of a layout.
ghost use Rattle.std.specs.Prelude.{◌≡◌, ◌<◌, ◌++◌, ◌∷◌, [], All, length, map, IfOk, OnOk};
ghost use Rattle.std.specs.List.{zip};
ghost use Rattle.mig_base.specs.declared.ids.Spot.{Spot};
ghost use Rattle.mig_base.specs.Texts.{LayoutText, spot_line, text_of_lines};

use crate::printing::push_spot;
use mig_base::{Input, Name, Spot};
use std::alloc::{AllocError, Global};

/// The text of a layout: the header `item,disk,slot`, and a line for each item with its spot.
/// An error is want of memory.
pub fn print_layout(alloc: Global, input: &Input, spots: &[Spot]) -> Result<Vec<u8>, AllocError>
    requires each { length spots.now ≡ length input.now.items }
    requires on_disks { All (λ (spot : Spot). spot.disk.0 < length input.now.disks) spots.now }
    ensures { IfOk result (λ text. LayoutText input.now spots.now text.items) }
{
    let mut out = Vec::new(alloc);
    out.extend_from_slice(b"item,disk,slot\n")?;
    push_spots(&mut out, input, spots)?;
    Ok(out)
}

/// Adds a line for each item.
fn push_spots(out: &mut Vec<u8>, input: &Input, spots: &[Spot]) -> Result<(), AllocError>
    requires each { length spots.now ≡ length input.now.items }
    requires on_disks { All (λ (spot : Spot). spot.disk.0 < length input.now.disks) spots.now }
    ensures { OnOk result (out.new.items ≡ out.old.items ++ text_of_lines (map (spot_line input.now) (zip input.now.items spots.now))) }
{
    let items = input.items();
    for k in 0..items.len() {
        push_item(out, input, &items[k], spots[k])?;
    }
    Ok(())
}

/// Adds an item's line.
fn push_item(out: &mut Vec<u8>, input: &Input, item: &Name, spot: Spot) -> Result<(), AllocError>
    requires { spot.disk.0 < length input.now.disks }
    ensures { OnOk result (out.new.items ≡ out.old.items ++ (spot_line input.now (item.now, spot) ++ 10 ∷ [])) }
{
    out.extend_from_slice(item.bytes())?;
    push_spot(out, input, b',', spot)?;
    out.push(b'\n')?;
    Ok(())
}
