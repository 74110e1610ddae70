//! Status 2: why the words are no command.

use crate::commands::{is_saved, row_of};
use crate::excerpts::Piece::Excerpt;
use crate::excerpts::{Said, say};
use crate::names::say_no_name;
use mig_base::{MAX_DISKS, MAX_ITEMS, MAX_LIMIT, Name, read_digits};
use mig_words::{CommandRow, ROWS};
use std::alloc::{AllocError, Global};
use strsim::osa_distance;

/// How many letters of a command may differ; two that are exchanged count as one.
const MOST_EDITS: usize = 2;

/// The command that differs from the word in the fewest letters, whatever their case, if these are few.
fn nearest(alloc: Global, word: &str) -> Result<Option<&'static str>, AllocError> {
    if word.len() > 16 {
        return Ok(None);
    }
    let mut best = None;
    let mut fewest = MOST_EDITS + 1;
    for row in &ROWS {
        let command = row.word;
        let edits = match command.eq_ignore_ascii_case(word) {
            true => 0,
            false => osa_distance(alloc, word, command)?,
        };
        if edits < fewest && edits < command.len() / 2 {
            best = Some(command);
            fewest = edits;
        }
    }
    Ok(best)
}

/// Why the words are no command in its listed form.
pub(crate) fn say_words(alloc: Global, f: &mut String, words: &[String]) -> Said {
    f.push_str("migrate: ")?;
    let Some((command, given)) = words.split_first() else {
        return f.push_str("no word is given, and a command is wanted");
    };
    let command = command.as_str();
    match row_of(command) {
        None => say_unknown(f, command, nearest(alloc, command)?),
        Some(row) if given.len() != row.roles.len() => say_count(f, row, given),
        Some(row) if command == "rehearse" => say_case(f, row, given),
        Some(row) => say_files(f, row, given),
    }
}

/// A word that is no command.
fn say_unknown(f: &mut String, word: &str, nearest: Option<&'static str>) -> Said {
    let shown = Excerpt(word.as_bytes());
    match nearest {
        Some(command) => say!(f; "`{}` is no command; is it `{}`?", shown, command),
        None if is_option(word) => say!(f; "`{}` is no command, and there are no options", shown),
        None => say!(f; "`{}` is no command", shown),
    }
}

/// Whether the word looks like an option of another program.
fn is_option(word: &str) -> bool {
    word.len() > 1 && word.starts_with("-")
}

/// Too few words or too many.
fn say_count(f: &mut String, row: &CommandRow, given: &[String]) -> Said {
    for word in given {
        if is_option(word.as_str()) {
            return say!(f; "there are no options; `{}` is one", Excerpt(word.as_bytes()));
        }
    }
    let (wanted, count) = (row.roles.len(), given.len());
    say!(f; "`{}` is followed by {} words, and here by {}: ", row.word, wanted, count)?;
    match (row.roles.get(count), given.get(wanted)) {
        (Some(role), _) => say!(f; "{} is missing", *role),
        (None, Some(word)) => say!(f; "`{}` is too many", Excerpt(word.as_bytes())),
        (None, None) => Ok(()),
    }
}

/// A word that can't name the file, or the disk, that it is for, or two that are the same.
fn say_files(f: &mut String, row: &CommandRow, given: &[String]) -> Said {
    for (role, word) in row.roles.iter().zip(given) {
        let bytes = word.as_bytes();
        let length = bytes.len();
        match *role {
            "NAME" if Name::read(bytes).is_none() => return say_no_name(f, "disk", bytes),
            "NAME" => {}
            _ if length == 0 => return say!(f; "the word for {} is empty", *role),
            _ if length > 255 =>
                return say!(f; "the word for {} has {} bytes, and a file's name at most 255", *role, length),
            _ if bytes.ends_with(b".disk") || bytes.ends_with(b".mig") => {
                say!(f; "`{}`, the word for {}, ", Excerpt(bytes), *role)?;
                return f.push_str(
                    "is named as a disk's file or the journal: it may end neither in .disk nor in .mig",
                );
            }
            _ => {}
        }
    }
    say_pair(f, row, given)
}

/// Two words that are the same where one of them is saved.
fn say_pair(f: &mut String, row: &CommandRow, given: &[String]) -> Said {
    for (role, word) in row.roles.iter().zip(given) {
        let mut named = row.roles.iter().zip(given);
        let same = named.find(|(other, that)| *other != role && that.as_str() == word.as_str());
        if let (true, Some((other, _))) = (is_saved(row, role), same) {
            let word = Excerpt(word.as_bytes());
            return say!(f; "`{}` is the word for {} and for {}, and {} is saved: the two must differ", word, *role, *other, *role);
        }
    }
    f.push_str("the words are no command")
}

/// The three numbers of a rehearsal.
fn say_case(f: &mut String, row: &CommandRow, given: &[String]) -> Said {
    for (role, word) in row.roles.iter().zip(given) {
        if read_digits(word.as_bytes()).is_none() {
            return say!(f; "{} is `{}`, and must be 1 to 10 digits, nothing else", *role, Excerpt(word.as_bytes()));
        }
    }
    let n = number_in(given, 0);
    let most = number_in(given, 2);
    if n < 2 || n > MAX_DISKS as u64 {
        return say!(f; "N is {}, and must be 2 to {}", n, MAX_DISKS);
    }
    if most < 1 || most > u64::from(MAX_LIMIT) {
        return say!(f; "LIMIT is {}, and must be 1 to {}", most, MAX_LIMIT);
    }
    let items = n.saturating_mul(n - 1).saturating_mul(number_in(given, 1));
    say!(f; "N times N - 1 times PERPAIR is {}, and must be 1 to {}", items, MAX_ITEMS)
}

fn number_in(given: &[String], place: usize) -> u64 {
    match given.get(place) {
        Some(word) => read_digits(word.as_bytes()).unwrap_or(0),
        None => 0,
    }
}
