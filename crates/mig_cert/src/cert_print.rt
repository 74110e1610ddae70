//! The text of a certificate.
ghost use Rattle.std.specs.Prelude.{◌≡◌, ◌<◌, ◌^◌, ◌++◌, ◌∷◌, [], All, length, codes, IfOk, OnOk};
ghost use Rattle.mig_base.specs.declared.ids.DiskId.{DiskId};
ghost use Rattle.mig_base.specs.Bounding.{BoundFits, bound_value, stated_load};
ghost use Rattle.mig_base.specs.Certificates.{CertFits};
ghost use Rattle.mig_base.specs.DiskNumbers.{IsDiskSet};
ghost use Rattle.mig_base.specs.Texts.{bound_set, cert_title, CertText, class_word, disk_name, side_word, text_of_lines, words};
ghost use Rattle.mig_base.specs.Transfers.{transfer_graph};
ghost use Rattle.mig_cert.specs.BoundParts.{limit_of, side_limit_of};
ghost use Rattle.mig_cert.specs.Prints.{blank_number, bound_text, member_lines, opening_text};

use crate::bounds::on_side;
use mig_base::{Bound, Cert, Class, DiskId, Input, Side};
use mig_text::{push_count, push_disk, push_number};
use std::alloc::{AllocError, Global};

/// The spelling of a certificate that fits the input. An error is want of memory.
pub fn print_cert(alloc: Global, input: &Input, cert: &Cert) -> Result<Vec<u8>, AllocError>
    requires { CertFits input.now cert.now }
    ensures { IfOk result (λ text. CertText input.now cert.now text.items) }
{
    let mut out = Vec::new(alloc);
    push_opening(&mut out, input, cert)?;
    push_bound(&mut out, input, &cert.bound)?;
    out.extend_from_slice(b"end\n")?;
    Ok(out)
}

/// Adds the first four lines.
fn push_opening(out: &mut Vec<u8>, input: &Input, cert: &Cert) -> Result<(), AllocError>
    ensures text { OnOk result (out.new.items ≡ out.old.items ++ opening_text input.now cert.now) }
    ensures rounds { cert.now.rounds < 2 ^ 32 }
    ensures quotient { cert.now.quotient < 2 ^ 32 }
{
    let rounds = cert.rounds;
    let quotient = cert.quotient;
    out.extend_from_slice(title_of(input))?;
    out.push(b'\n')?;
    push_count(out, b"rounds", rounds)?;
    push_count(out, b"quotient", quotient)?;
    push_class(out, cert.class)?;
    Ok(())
}

/// The first line: the second text is that of disks with an outgoing and an incoming limit.
pub(crate) fn title_of(input: &Input) -> &'static [u8]
    ensures { result.now ≡ cert_title input.now }
{
    if input.duplex() {
        b"migration-certificate 2".as_slice()
    } else {
        b"migration-certificate 1".as_slice()
    }
}

/// Adds the line of a class.
fn push_class(out: &mut Vec<u8>, class: Class) -> Result<(), AllocError>
    ensures { OnOk result (out.new.items ≡ out.old.items ++ (words (codes "class" ∷ class_word class ∷ []) ++ 10 ∷ [])) }
{
    match class {
        Class::Even => out.extend_from_slice(b"class even\n"),
        Class::General => out.extend_from_slice(b"class general\n"),
        Class::Duplex => out.extend_from_slice(b"class duplex\n"),
    }
}

/// Adds the lines of a bound.
fn push_bound(out: &mut Vec<u8>, input: &Input, bound: &Bound) -> Result<(), AllocError>
    requires { BoundFits (transfer_graph input.now) bound.now }
    ensures text { OnOk result (out.new.items ≡ out.old.items ++ bound_text input.now bound.now) }
    ensures load { stated_load bound.now < 2 ^ 32 }
    ensures value { bound_value bound.now < 2 ^ 32 }
    ensures set { IsDiskSet (bound_set bound.now) }
{
    match bound {
        Bound::Nothing => out.extend_from_slice(b"bound nothing\n"),
        Bound::OfDisk { disk, load, value } => push_disk_line(out, input, *disk, *load, *value),
        Bound::OfSide {
            disk,
            side,
            load,
            value,
        } => push_side_line(out, input, *disk, *side, *load, *value),
        Bound::OfSet {
            disks,
            inside,
            value,
        } => {
            input.keeps_rules();
            let ids = disks.ids();
            push_set_line(out, ids.len() as u32, *inside, *value)?;
            push_members(out, input, ids)
        }
    }
}

/// Adds `bound disk NAME LOAD LIMIT VALUE`.
fn push_disk_line(
    out: &mut Vec<u8>,
    input: &Input,
    disk: DiskId,
    load: u32,
    value: u32,
) -> Result<(), AllocError>
    requires { disk.0 < length input.now.disks }
    ensures { OnOk result (out.new.items ≡ out.old.items
        ++ (codes "bound disk " ++ (disk_name input.now disk.0 ++ (blank_number load ++ (blank_number (limit_of input.now disk.0) ++ (blank_number value ++ 10 ∷ [])))))) }
{
    out.extend_from_slice(b"bound disk ")?;
    push_disk(out, input, disk)?;
    push_blank_number(out, load)?;
    push_blank_number(out, input.disks()[disk.0 as usize].limits.most_ends())?;
    push_last_number(out, value)
}

/// Adds `bound side NAME out LOAD LIMIT VALUE`, or the same with `in`.
fn push_side_line(
    out: &mut Vec<u8>,
    input: &Input,
    disk: DiskId,
    side: Side,
    load: u32,
    value: u32,
) -> Result<(), AllocError>
    requires { disk.0 < length input.now.disks }
    ensures { OnOk result (out.new.items ≡ out.old.items
        ++ (codes "bound side " ++ (disk_name input.now disk.0 ++ (32 ∷ side_word side ++ (blank_number load ++ (blank_number (side_limit_of input.now side disk.0) ++ (blank_number value ++ 10 ∷ []))))))) }
{
    out.extend_from_slice(b"bound side ")?;
    push_disk(out, input, disk)?;
    out.push(b' ')?;
    push_side(out, side)?;
    push_blank_number(out, load)?;
    push_blank_number(out, on_side(input.disks()[disk.0 as usize].limits, side))?;
    push_last_number(out, value)
}

/// Adds the word of a side.
fn push_side(out: &mut Vec<u8>, side: Side) -> Result<(), AllocError>
    ensures { OnOk result (out.new.items ≡ out.old.items ++ side_word side) }
{
    match side {
        Side::Outgoing => out.extend_from_slice(b"out"),
        Side::Incoming => out.extend_from_slice(b"in"),
    }
}

/// Adds `bound set COUNT INSIDE VALUE`.
fn push_set_line(out: &mut Vec<u8>, count: u32, inside: u32, value: u32) -> Result<(), AllocError>
    ensures { OnOk result (out.new.items ≡ out.old.items ++ (codes "bound set" ++ (blank_number count ++ (blank_number inside ++ (blank_number value ++ 10 ∷ []))))) }
{
    out.extend_from_slice(b"bound set")?;
    push_blank_number(out, count)?;
    push_blank_number(out, inside)?;
    push_last_number(out, value)
}

/// Adds a blank and a number.
fn push_blank_number(out: &mut Vec<u8>, number: u32) -> Result<(), AllocError>
    ensures { OnOk result (out.new.items ≡ out.old.items ++ blank_number number) }
{
    out.push(b' ')?;
    push_number(out, number)
}

/// The same at the end of a line.
fn push_last_number(out: &mut Vec<u8>, number: u32) -> Result<(), AllocError>
    ensures { OnOk result (out.new.items ≡ out.old.items ++ (blank_number number ++ 10 ∷ [])) }
{
    push_blank_number(out, number)?;
    out.push(b'\n')?;
    Ok(())
}

/// Adds a line for each disk of a set.
fn push_members(out: &mut Vec<u8>, input: &Input, disks: &[DiskId]) -> Result<(), AllocError>
    requires { All (λ (d : DiskId). d.0 < length input.now.disks) disks.now }
    ensures { OnOk result (out.new.items ≡ out.old.items ++ text_of_lines (member_lines input.now disks.now)) }
{
    for disk in disks {
        push_disk(out, input, *disk)?;
        out.push(b'\n')?;
    }
    Ok(())
}
