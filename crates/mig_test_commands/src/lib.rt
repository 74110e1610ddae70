//! Tests alone: the commands of the top call over folders, sinks and stores that fail, crash or lack memory, and what no command tells of
//! plans. They stand apart from the top call, so that it is proved once. What the program does over real files is tried in tests/.
#![tactic(auto)]

#[cfg(test)]
mod clusters;
#[cfg(test)]
mod failing;
#[cfg(test)]
mod filling;
#[cfg(test)]
mod flying;
#[cfg(test)]
mod halting;
#[cfg(test)]
mod lines;
#[cfg(test)]
mod living;
#[cfg(test)]
mod rounds;
#[cfg(test)]
mod stopping;
#[cfg(test)]
mod stores;
