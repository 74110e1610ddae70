//! Hints on standard error: what a status means, shown on the files and words as they were typed.
#![tactic(auto)]

mod blames;
mod causes;
mod certs;
mod commands;
mod excerpts;
mod files;
mod findings;
mod headers;
mod hinting;
mod journals;
mod lines;
mod made;
mod names;
mod plans;
mod rows;
mod slots;
mod stores;
mod texts;
mod wrong_words;

pub use commands::Forms;
pub use files::Stamps;
pub use hinting::hint;
