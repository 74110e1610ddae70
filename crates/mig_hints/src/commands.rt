//! The commands, as they are listed on standard error.

use mig_words::{CommandRow, ROWS};
use std::fmt::{self, Display, Formatter};

/// The forms of all commands, for standard error.
pub struct Forms;

impl Display for Forms {
    fn fmt<W: fmt::Write>(&self, f: &mut Formatter<W>) -> fmt::Result {
        f.write_str("The commands:\n")?;
        for row in &ROWS {
            let form = row.form;
            let does = row.does;
            write!(f, "  migrate {form:<39}{does}\n")?;
        }
        f.write_str(READING)
    }
}

/// How the words are read.
const READING: &str = "\
DISKS, NOW and NEXT are CSV files; PLAN is a plan and CERT its certificate; SCRIPT has lines `read ITEM` and `step N`.
Each command has just these words, in this order, and no options. Often:
  PLAN and CERT of plan, PLAN of plan-tight, NEXT of drain, and LAYOUT must differ from each other and from the other files
  a file's name has 1 to 255 bytes
  a file's name ends neither in .disk nor in .mig
  N is 2 to 1024, N times N - 1 times PERPAIR 1 to 65536, LIMIT 1 to 1024";

/// The row of the command with this word.
pub(crate) fn row_of(word: &str) -> Option<&'static CommandRow> {
    ROWS.iter().find(|row| row.word == word)
}

/// Whether the command only saves the file with this role, whatever other commands do.
pub(crate) fn is_saved(row: &CommandRow, role: &str) -> bool {
    row.saved.iter().any(|it| *it == role)
}
