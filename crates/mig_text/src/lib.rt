//! The texts of plans and layouts, and the reading of lines and words that texts share.
#![tactic(auto)]

mod errors;
mod finder;
mod laws;
mod layout;
mod lines;
mod next_disks;
mod numbers;
mod parts;
mod plan_print;
mod plan_read;
mod printing;
mod shifts;
mod words;

pub use errors::TextError;
pub use finder::Finder;
pub use laws::plan_texts_are_short;
pub use layout::print_layout;
pub use lines::Lines;
pub use next_disks::print_next;
pub use numbers::read_number;
pub use parts::Parts;
pub use plan_print::print_plan;
pub use plan_read::read_plan;
pub use printing::{push_count, push_disk, push_number};
pub use words::{is_number, last_number};
