//! Texts that are put part by part.
ghost use Rattle.std.specs.Prelude.{◌≡◌, map};
ghost use Rattle.hex.specs.Hex.{encode_lower};
ghost use Rattle.mig_words.specs.Outcomes.{joined};
ghost use Rattle.mig_words.specs.Puts.{Puts, part_text};

use hex::encode_to_slice;
use itoa::Buffer;
use mig_io::{Sink, SinkFailed};

/// A part of a text.
#[derive(Clone, Copy)]
pub enum TextPart<'a> {
    Text(&'a [u8]),
    /// In decimal.
    Number(u32),
    /// A digest, in hexadecimal.
    Hex(&'a [u8; 32]),
}

/// A digest in hexadecimal.
fn hex_text(digest: &[u8; 32]) -> [u8; 64]
    ensures { result ≡ encode_lower digest.now }
{
    let mut text = [0; 64];
    if encode_to_slice(digest.as_slice(), &mut text).is_err() {
        unreachable!();
    }
    text
}

/// Puts a part.
fn put_part<K: Sink>(out: &mut K, part: &TextPart<'_>) -> Result<(), SinkFailed>
    ensures { Puts (part_text part.now) (K.state out.old) (K.state out.new) result }
{
    match part {
        TextPart::Text(text) => out.put(text),
        TextPart::Number(number) => {
            let mut buffer = Buffer::new();
            out.put(buffer.format(*number).as_bytes())
        }
        TextPart::Hex(digest) => out.put(&hex_text(digest)),
    }
}

/// Puts parts, one after the other, up to the first that fails.
pub fn put_parts<K: Sink>(out: &mut K, parts: &[TextPart<'_>]) -> Result<(), SinkFailed>
    ensures { Puts (joined (map part_text parts.now)) (K.state out.old) (K.state out.new) result }
{
    for part in parts {
        put_part(out, part)?;
    }
    Ok(())
}
