//! Reads the words of a command line, and puts the text with which a command ends.
#![tactic(auto)]

mod case_words;
mod endings;
mod fault_texts;
mod naming;
mod putting;
mod telling;
mod words;

pub use case_words::number_in;
pub use endings::{CommandError, InputRefusal, StoreRefusal, TextFile};
pub use naming::{disk_in, fault_ending, name_in};
pub use putting::{TextPart, put_parts};
pub use telling::{show, show_halted, show_parked, show_parts, show_rounds, tell};
pub use words::{CaseWords, Command, CommandRow, PlanFiles, ROWS, Reader, TaskFiles, read_words};
