//! Puts the text of a command, and answers the number of its status.
ghost use Rattle.std.specs.Prelude.{◌≡◌, ◌≤◌, ◌∷◌, [], codes, map, slice_index_or, unwrap_or};
ghost use Rattle.std.specs.Fmt.{decimal};
ghost use Rattle.mig_base.specs.FaultCounts.{Rose};
ghost use Rattle.mig_io.specs.Held.{Extends, ExtendsInPart};
ghost use Rattle.mig_words.specs.Outcomes.{code, file_word, input_text, joined, outcome_of, refusal_text, store_text, text_of, text_word};
ghost use Rattle.mig_words.specs.declared.endings.InputRefusal.TheVariants as finding;
ghost use Rattle.mig_words.specs.declared.endings.StoreRefusal.TheVariants as refusal;
ghost use Rattle.mig_words.specs.Puts.{Puts, Shows, part_text};

use crate::endings::{CommandError, InputRefusal, StoreRefusal, TextFile};
use crate::fault_texts::{put_blame, put_cause};
use crate::putting::TextPart::{Hex, Number, Text};
use crate::putting::{TextPart, put_parts};
use mig_base::{FileKind, Name, Why};
use mig_io::{Sink, SinkFailed};

/// The word of a file of the input.
fn word_of(file: FileKind) -> &'static [u8]
    ensures { result.now ≡ file_word file }
{
    match file {
        FileKind::Disks => b"disks",
        FileKind::Now => b"now",
        FileKind::Next => b"next",
    }
}

/// Puts the text of a refused file.
fn put_refusal<K: Sink>(out: &mut K, file: FileKind, row: u32, why: &Why) -> Result<(), SinkFailed>
    ensures { Puts (refusal_text file row why.now) (K.state out.old) (K.state out.new) result }
{
    put_parts(
        out,
        &[
            Text(b"refused "),
            Text(word_of(file)),
            Text(b" row "),
            Number(row),
            Text(b": "),
        ],
    )?;
    put_cause(out, why)?;
    out.put(b"\n")
}

/// The word of a text.
fn text_word_of(text: TextFile) -> &'static [u8]
    ensures { result.now ≡ text_word text }
{
    match text {
        TextFile::Plan => b"plan",
        TextFile::Cert => b"certificate",
        TextFile::Script => b"script",
    }
}

/// Puts the text of a text that is no spelling.
fn put_misfit<K: Sink>(out: &mut K, text: TextFile, line: u32) -> Result<(), SinkFailed>
    ensures { Puts (joined (codes "refused " ∷ text_word text ∷ codes " line " ∷ decimal line ∷ codes "\n" ∷ [])) (K.state out.old) (K.state out.new) result }
{
    put_parts(
        out,
        &[
            Text(b"refused "),
            Text(text_word_of(text)),
            Text(b" line "),
            Number(line),
            Text(b"\n"),
        ],
    )
}

/// Puts the two digests of a journal that names another plan.
fn put_other_plan<'a, K: Sink>(
    out: &mut K,
    kept: &'a [u8; 32],
    ours: &'a [u8; 32],
) -> Result<(), SinkFailed>
    ensures { Puts (store_text (refusal.OtherPlan kept.now ours.now)) (K.state out.old) (K.state out.new) result }
{
    put_parts(
        out,
        &[
            Text(b"journal started with another plan "),
            Hex(kept),
            Text(b", ours "),
            Hex(ours),
            Text(b"\n"),
        ],
    )
}

/// Puts the item that a slot doesn't name.
fn put_not_there<K: Sink>(out: &mut K, item: &Option<Name>) -> Result<(), SinkFailed>
    ensures { Puts (store_text (refusal.NotThere item.now)) (K.state out.old) (K.state out.new) result }
{
    put_parts(
        out,
        &[Text(b"not there "), Text(name_bytes(item)), Text(b"\n")],
    )
}

/// Puts the slot that is used.
fn put_occupied<K: Sink>(out: &mut K, disk: &Option<Name>, slot: u32) -> Result<(), SinkFailed>
    ensures { Puts (store_text (refusal.Occupied disk.now slot)) (K.state out.old) (K.state out.new) result }
{
    put_parts(
        out,
        &[
            Text(b"occupied "),
            Text(name_bytes(disk)),
            Text(b" "),
            Number(slot),
            Text(b"\n"),
        ],
    )
}

/// Puts how many shifts a plan has that is too large for a drill.
fn put_too_large<K: Sink>(out: &mut K, shifts: u32) -> Result<(), SinkFailed>
    ensures { Puts (input_text (finding.TooLarge shifts)) (K.state out.old) (K.state out.new) result }
{
    put_parts(
        out,
        &[Text(b"too large for a drill "), Number(shifts), Text(b"\n")],
    )
}

/// Puts the disk that is the next disk of more items than it has slots.
fn put_too_many<K: Sink>(
    out: &mut K,
    disk: &Option<Name>,
    needs: u32,
    slots: u32,
) -> Result<(), SinkFailed>
    ensures { Puts (input_text (finding.TooMany disk.now needs slots)) (K.state out.old) (K.state out.new) result }
{
    put_parts(
        out,
        &[
            Text(b"too many for "),
            Text(name_bytes(disk)),
            Text(b", needs "),
            Number(needs),
            Text(b", has "),
            Number(slots),
            Text(b"\n"),
        ],
    )
}

/// Puts the name that no disk has.
fn put_no_disk<K: Sink>(out: &mut K, name: &Name) -> Result<(), SinkFailed>
    ensures { Puts (input_text (finding.NoDisk name.now)) (K.state out.old) (K.state out.new) result }
{
    put_parts(out, &[Text(b"no disk "), Text(name.bytes()), Text(b"\n")])
}

/// Puts how many items a disk has, and how many slots are free on the others.
fn put_no_room<K: Sink>(out: &mut K, items: u32, free: u32) -> Result<(), SinkFailed>
    ensures { Puts (input_text (finding.NoRoom items free)) (K.state out.old) (K.state out.new) result }
{
    put_parts(
        out,
        &[
            Text(b"no room, "),
            Number(items),
            Text(b" items, "),
            Number(free),
            Text(b" free\n"),
        ],
    )
}

/// The bytes of a name; none where there is no name.
fn name_bytes(name: &Option<Name>) -> &[u8]
    ensures { result.now ≡ unwrap_or name.now [] }
{
    match name {
        Some(name) => name.bytes(),
        None => b"",
    }
}

/// The name at a place; no text where there is none.
fn name_at<'a>(names: &[&'a str], place: usize) -> &'a str
    ensures { result.now ≡ slice_index_or (map (λ n. n.now) names.now) place [] }
{
    if place < names.len() {
        names[place]
    } else {
        ""
    }
}

/// Puts the text of what was found wrong.
fn put_finding<K: Sink>(out: &mut K, finding: &InputRefusal) -> Result<(), SinkFailed>
    ensures { Puts (input_text finding.now) (K.state out.old) (K.state out.new) result }
{
    match finding {
        InputRefusal::Blamed { blame, name } => put_blame(out, blame, name_bytes(name)),
        InputRefusal::Refused { file, row, why } => put_refusal(out, *file, *row, why),
        InputRefusal::NotSpelled { text, line } => put_misfit(out, *text, *line),
        InputRefusal::TooLarge { shifts } => put_too_large(out, *shifts),
        InputRefusal::TooMany { disk, needs, slots } => put_too_many(out, disk, *needs, *slots),
        InputRefusal::NoFreeSlot => out.put(b"no free slot\n"),
        InputRefusal::NoDisk { name } => put_no_disk(out, name),
        InputRefusal::NoRoom { items, free } => put_no_room(out, *items, *free),
    }
}

/// Puts the text of what a store refuses.
fn put_store_refusal<K: Sink>(out: &mut K, refusal: &StoreRefusal) -> Result<(), SinkFailed>
    ensures { Puts (store_text refusal.now) (K.state out.old) (K.state out.new) result }
{
    match refusal {
        StoreRefusal::Started => out.put(b"journal started\n"),
        StoreRefusal::OtherPlan { kept, ours } => put_other_plan(out, kept, ours),
        StoreRefusal::NotStarted => out.put(b"journal not started\n"),
        StoreRefusal::NotThere { item } => put_not_there(out, item),
        StoreRefusal::Occupied { disk, slot } => put_occupied(out, disk, *slot),
    }
}

/// Puts the text of an ending of a command that loads the files of these names.
fn put_text<K: Sink>(out: &mut K, ending: &CommandError, names: &[&str]) -> Result<(), SinkFailed>
    ensures { Puts (text_of (outcome_of (map (λ n. n.now) names.now) ending.now)) (K.state out.old) (K.state out.new) result }
{
    match ending {
        CommandError::Unlisted => out.put(b"words not understood\n"),
        CommandError::FolderFault => out.put(b"folder fault\n"),
        CommandError::StoreFault => out.put(b"store fault\n"),
        CommandError::Memory => out.put(b"no memory\n"),
        CommandError::NoFile { place } => {
            let word = name_at(names, *place);
            put_parts(
                out,
                &[Text(b"no file "), Text(word.as_bytes()), Text(b"\n")],
            )
        }
        CommandError::Found(finding) => put_finding(out, finding),
        CommandError::Refusal(refusal) => put_store_refusal(out, refusal),
    }
}

/// Puts the text of an ending of a command that loads the files of these names, and answers the number of its status.
/// A fault of the sink ends the text there.
pub fn tell<K: Sink>(out: &mut K, ending: &CommandError, names: &[&str]) -> u8
    ensures status { result ≡ code (outcome_of (map (λ n. n.now) names.now) ending.now) }
    ensures begun { ExtendsInPart (text_of (outcome_of (map (λ n. n.now) names.now) ending.now)) (K.state out.old) (K.state out.new) }
    ensures whole { (Rose (K.state out.old).faults (K.state out.new).faults → ⊥) → Extends (text_of (outcome_of (map (λ n. n.now) names.now) ending.now)) (K.state out.old) (K.state out.new) }
    ensures later { (K.state out.old).faults ≤ (K.state out.new).faults }
{
    let _ = put_text(out, ending, names);
    ending.code()
}

/// Puts the text of a command that is done, and answers the number of the status: 0, or 6 where the sink fails.
pub fn show<K: Sink>(out: &mut K, text: &[u8]) -> u8
    ensures { Shows text.now (K.state out.old) (K.state out.new) result }
{
    match out.put(text) {
        Ok(()) => 0,
        Err(SinkFailed) => 6,
    }
}

/// The same of a text that is put part by part.
pub fn show_parts<K: Sink>(out: &mut K, parts: &[TextPart<'_>]) -> u8
    ensures { Shows (joined (map part_text parts.now)) (K.state out.old) (K.state out.new) result }
{
    if put_parts(out, parts).is_err() {
        return 6;
    }
    0
}

/// The same of a line with two numbers.
fn show_two<'a, K: Sink>(
    out: &mut K,
    before: &'a [u8],
    first: u32,
    between: &'a [u8],
    second: u32,
) -> u8
    ensures { Shows (joined (before.now ∷ decimal first ∷ between.now ∷ decimal second ∷ codes "\n" ∷ [])) (K.state out.old) (K.state out.new) result }
{
    show_parts(
        out,
        &[
            Text(before),
            Number(first),
            Text(between),
            Number(second),
            Text(b"\n"),
        ],
    )
}

/// Puts how many rounds a plan that is carried out has, and how many of them were found done, and answers the number of
/// the status: 0, or 6 where the sink fails.
pub fn show_rounds<K: Sink>(out: &mut K, rounds: u32, found: u32) -> u8
    ensures { Shows (joined (codes "done " ∷ decimal rounds ∷ codes " rounds, found " ∷ decimal found ∷ codes "\n" ∷ [])) (K.state out.old) (K.state out.new) result }
{
    show_two(out, b"done ", rounds, b" rounds, found ", found)
}

/// Puts how many rounds a tight plan has, and how many items it parks, and answers the number of the status: 0, or 6 where
/// the sink fails.
pub fn show_parked<K: Sink>(out: &mut K, rounds: u32, parked: u32) -> u8
    ensures { Shows (joined (codes "rounds " ∷ decimal rounds ∷ codes ", parked " ∷ decimal parked ∷ codes "\n" ∷ [])) (K.state out.old) (K.state out.new) result }
{
    show_two(out, b"rounds ", rounds, b", parked ", parked)
}

/// Puts after how many rounds a plan is closed, and how many it has, and answers the number of the status: 0, or 6 where
/// the sink fails.
pub fn show_halted<K: Sink>(out: &mut K, rounds: u32, found: u32) -> u8
    ensures { Shows (joined (codes "halted after " ∷ decimal found ∷ codes " of " ∷ decimal rounds ∷ codes "\n" ∷ [])) (K.state out.old) (K.state out.new) result }
{
    show_two(out, b"halted after ", found, b" of ", rounds)
}
