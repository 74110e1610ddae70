//! The texts of what is wrong with a file, a plan or a certificate.
ghost use Rattle.std.specs.Prelude.{◌∷◌, codes};
ghost use Rattle.std.specs.Fmt.{decimal};
ghost use Rattle.mig_words.specs.Outcomes.{blame_pieces, cause_text, in_round, joined, kept_counted, named_count};
ghost use Rattle.mig_words.specs.Puts.{Puts};

use crate::putting::TextPart::{Number, Text};
use crate::putting::put_parts;
use mig_base::{Blame, Why};
use mig_io::{Sink, SinkFailed};

/// Puts why a file is refused.
pub fn put_cause<K: Sink>(out: &mut K, why: &Why) -> Result<(), SinkFailed>
    ensures { Puts (cause_text why.now) (K.state out.old) (K.state out.new) result }
{
    match why {
        Why::BadHeader => out.put(b"bad header"),
        Why::BadWidth => out.put(b"bad width"),
        Why::BadName => out.put(b"bad name"),
        Why::BadNumber => out.put(b"bad number"),
        Why::OutOfRange => out.put(b"out of range"),
        Why::DuplicateDisk => out.put(b"disk listed twice"),
        Why::DuplicateItem => out.put(b"item listed twice"),
        Why::UnknownDisk => out.put(b"unknown disk"),
        Why::SlotTooHigh => out.put(b"slot too high"),
        Why::SlotTaken => out.put(b"slot taken"),
        Why::TooManyRows => out.put(b"too many rows"),
        Why::TooLong => out.put(b"file too long"),
        Why::NotInNow => out.put(b"item not in now"),
        Why::NotInNext => out.put(b"item not in next"),
        Why::NoRoom { disk, needs, slots } => put_parts(
            out,
            &[
                Text(b"no room on "),
                Text(disk.bytes()),
                Text(b", needs "),
                Number(*needs),
                Text(b", has "),
                Number(*slots),
            ],
        ),
    }
}

/// Puts what is wrong with an item in a round.
fn put_item<'a, K: Sink>(
    out: &mut K,
    what: &'a [u8],
    round: u32,
    name: &'a [u8],
) -> Result<(), SinkFailed>
    ensures { Puts (joined (in_round what.now round name.now)) (K.state out.old) (K.state out.new) result }
{
    put_parts(
        out,
        &[
            Text(what),
            Text(b" round "),
            Number(round),
            Text(b" item "),
            Text(name),
            Text(b"\n"),
        ],
    )
}

/// Puts the disk that is over its limit in a round, and how many shifts have it as an end.
fn put_over_limit<'a, K: Sink>(
    out: &mut K,
    round: u32,
    disk: &'a [u8],
    count: u32,
) -> Result<(), SinkFailed>
    ensures { Puts (joined (codes "over limit round " ∷ decimal round ∷ codes " disk " ∷ named_count disk.now count)) (K.state out.old) (K.state out.new) result }
{
    put_parts(
        out,
        &[
            Text(b"over limit round "),
            Number(round),
            Text(b" disk "),
            Text(disk),
            Text(b" count "),
            Number(count),
            Text(b"\n"),
        ],
    )
}

/// Puts the item that is moved too often, and how many shifts have it.
fn put_moved_too_often<K: Sink>(out: &mut K, item: &[u8], count: u32) -> Result<(), SinkFailed>
    ensures { Puts (joined (codes "moved too often item " ∷ named_count item.now count)) (K.state out.old) (K.state out.new) result }
{
    put_parts(
        out,
        &[
            Text(b"moved too often item "),
            Text(item),
            Text(b" count "),
            Number(count),
            Text(b"\n"),
        ],
    )
}

/// Puts two numbers that differ.
fn put_differ<K: Sink>(out: &mut K, what: &[u8], kept: u32, counted: u32) -> Result<(), SinkFailed>
    ensures { Puts (joined (what.now ∷ kept_counted kept counted)) (K.state out.old) (K.state out.new) result }
{
    put_parts(
        out,
        &[
            Text(what),
            Text(b" kept "),
            Number(kept),
            Text(b" counted "),
            Number(counted),
            Text(b"\n"),
        ],
    )
}

/// Puts what is wrong with a plan or its certificate.
pub fn put_blame<K: Sink>(out: &mut K, blame: &Blame, name: &[u8]) -> Result<(), SinkFailed>
    ensures { Puts (joined (blame_pieces blame.now name.now)) (K.state out.old) (K.state out.new) result }
{
    match blame {
        Blame::EmptyRound { round } => put_parts(
            out,
            &[Text(b"empty round "), Number(*round), Text(b"\n")],
        ),
        Blame::NotHere { round, item: _ } => put_item(out, b"not here", *round, name),
        Blame::TwiceInRound { round, item: _ } => put_item(out, b"twice in", *round, name),
        Blame::SlotNotFree { round, item: _ } => put_item(out, b"slot not free", *round, name),
        Blame::OverLimit {
            round,
            disk: _,
            count,
        } => put_over_limit(out, *round, name, *count),
        Blame::WrongEnd { item: _ } => put_parts(
            out,
            &[Text(b"wrong end item "), Text(name), Text(b"\n")],
        ),
        Blame::MovedTooOften { item: _, count } => put_moved_too_often(out, name, *count),
        Blame::RoundsDiffer { kept, counted } => put_differ(out, b"rounds differ", *kept, *counted),
        Blame::QuotientDiffers { kept, counted } => {
            put_differ(out, b"quotient differs", *kept, *counted)
        }
        Blame::ClassDiffers => out.put(b"class differs\n"),
        Blame::LoadDiffers { kept, counted } => put_differ(out, b"load differs", *kept, *counted),
        Blame::ValueDiffers { kept, counted } => put_differ(out, b"value differs", *kept, *counted),
        Blame::Memory => Ok(()),
    }
}
