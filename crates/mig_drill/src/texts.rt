//! The text of a drill.
ghost use Rattle.std.specs.Prelude.{◌≡◌, ◌*◌, ◌<◌, ◌^◌, ◌∷◌, [], length};
ghost use Rattle.mig_base.specs.Texts.{text_of_lines};
ghost use Rattle.mig_drill.specs.Drills.{count_line, marks_line, stop_lines, drill_lines};
ghost use Rattle.mig_words.specs.Puts.{Puts};

use crate::writes::Write;
use mig_io::{Sink, SinkFailed};
use mig_words::TextPart::{Number, Text};
use mig_words::put_parts;

// Puts a line of a word and a number.
fn put_count<K: Sink>(out: &mut K, what: &[u8], count: u32) -> Result<(), SinkFailed>
    ensures { Puts (text_of_lines (count_line what.now count ∷ [])) (K.state out.old) (K.state out.new) result }
{
    put_parts(out, &[Text(what), Text(b" "), Number(count), Text(b"\n")])
}

// Puts the line of a stop, by the marks that are set before the write that it cuts off, and after it.
fn put_stop<K: Sink>(out: &mut K, number: u32, before: u32, after: u32) -> Result<(), SinkFailed>
    ensures { Puts (text_of_lines (marks_line number before after ∷ [])) (K.state out.old) (K.state out.new) result }
{
    put_parts(
        out,
        &[
            Text(b"stop "),
            Number(number),
            Text(b" marks "),
            Number(before),
            Text(b" "),
            Number(after),
            Text(b" "),
            Number(before),
            Text(b" "),
            Number(after),
            Text(b"\n"),
        ],
    )
}

// Puts the line of each stop.
fn put_stops<K: Sink>(out: &mut K, writes: &[Write]) -> Result<(), SinkFailed>
    requires { length writes.now < 2 ^ 30 }
    ensures { Puts (text_of_lines (stop_lines writes.now)) (K.state out.old) (K.state out.new) result }
{
    let mut marks = 0;
    for n in 0..writes.len() {
        let after = marks + u32::from(writes[n].sets_mark());
        put_stop(out, n as u32, marks, after)?;
        marks = after;
    }
    Ok(())
}

/// Puts the text of a drill of a plan that is carried out by these writes, of which so many runs reached their end.
pub fn put_drill<K: Sink>(out: &mut K, writes: &[Write], runs: u32) -> Result<(), SinkFailed>
    requires short { length writes.now < 2 ^ 30 }
    requires all { runs ≡ 4 * length writes.now }
    ensures { Puts (text_of_lines (drill_lines writes.now)) (K.state out.old) (K.state out.new) result }
{
    let count = writes.len() as u32;
    put_count(out, b"writes", count)?;
    put_stops(out, writes)?;
    put_count(out, b"reached", runs)
}
