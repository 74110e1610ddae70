//! The README's example; and tests: plans that are carried out on stores and on files in memory, stopped anywhere, resumed, closed and
//! carried out step by step, apart from mover and drill, so that each is proved once.
#![tactic(auto)]

#[cfg(test)]
mod cases;
#[cfg(test)]
mod drilling;
mod example;
#[cfg(test)]
mod file_stops;
#[cfg(test)]
mod flying;
#[cfg(test)]
mod halting;
#[cfg(test)]
mod reading;
#[cfg(test)]
mod stepping;
#[cfg(test)]
mod stopping;
#[cfg(test)]
mod stores;

pub use example::carry_and_read;
