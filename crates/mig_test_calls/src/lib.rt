//! Tests alone: calls of single crates, and the store over files with the calls that it makes, over real files and in memory. They stand
//! apart from the crates of these calls, so that each of them is proved once.
#![tactic(auto)]

#[cfg(test)]
mod asked_items;
#[cfg(test)]
mod boards;
#[cfg(test)]
mod disk_files;
#[cfg(test)]
mod file_stores;
#[cfg(test)]
mod folders;
#[cfg(test)]
mod host_calls;
#[cfg(test)]
mod saves;
#[cfg(test)]
mod shared_nodes;
#[cfg(test)]
mod stores;
#[cfg(test)]
mod streams;
#[cfg(test)]
mod told_systems;
#[cfg(test)]
mod two_sides;
#[cfg(test)]
mod work_folder;
