//! Jobs, which are what carrying out a plan needs of it: its digest, and its tables of items and spots. What slots show of
//! the items that should be in them.
#![tactic(auto)]

mod headers;
mod jobs;
mod left_rounds;
mod stops;
mod tables;
mod vacancies;

pub use headers::{has_header, is_there, is_used};
pub use jobs::{Job, count_shifts, prepare, spot_cell};
pub use vacancies::Vacancy;
