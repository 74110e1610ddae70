//! What is wrong with a name.
ghost use Rattle.std.specs.Prelude.{◌≡◌};
ghost use Rattle.mig_base.specs.Naming.{is_name_byte};

use crate::excerpts::Piece::Excerpt;
use crate::excerpts::{Said, say};

/// Why a field is no name.
pub(crate) fn say_no_name(f: &mut String, what: &str, field: &[u8]) -> Said {
    match field.iter().position(|b| !is_name_byte(*b)) {
        Some(place) => say_wrong_byte(f, what, field, place),
        None if field.is_empty() => say!(f; "the name of the {} is empty", what),
        None =>
            say!(f; "the name of the {}, `{}`, has {} bytes, and a name at most 32", what, Excerpt(field), field.len()),
    }
}

fn say_wrong_byte(f: &mut String, what: &str, field: &[u8], place: usize) -> Said {
    let number = place.saturating_add(1);
    say!(f; "byte {} of `{}`, the name of the {}, is ", number, Excerpt(field), what)?;
    say_byte(f, field.get(place..).unwrap_or(&[]))?;
    f.push_str(": a name has letters A-Z and a-z, digits, _, - and . alone")
}

/// What the first of these bytes is.
fn say_byte(f: &mut String, bytes: &[u8]) -> Said {
    match bytes {
        [b' ', ..] => f.push_str("a blank"),
        [0xc2, 0xa0, ..] => f.push_str("the first of a no-break space"),
        [byte, ..] => write!(f, "0x{byte:02x}"),
        _ => f.push_str("no letter"),
    }
}

/// Whether the byte may stand in a name.
fn is_name_byte(byte: u8) -> bool
    ensures { result ≡ is_name_byte byte }
{
    byte.is_ascii_alphanumeric() || byte == b'_' || byte == b'-' || byte == b'.'
}
