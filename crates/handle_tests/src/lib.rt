//! The tests of sessions and of how they end: of `handle_pass`, `device_calls`, `group_commit` and `committer`, over new images in memory,
//! of the desks of `committer` by themselves, and of `par_runner`.
//!
//! They show what no clause says, as that a client that waits is served: a test of a desk that forgets one never ends.
#![tactic(auto)]

#[cfg(test)]
mod call_tests;
#[cfg(test)]
mod desk_tests;
#[cfg(test)]
mod ending_tests;
#[cfg(test)]
mod group_tests;
#[cfg(test)]
mod hall;
#[cfg(test)]
mod runner_tests;
#[cfg(test)]
mod same;
#[cfg(test)]
mod session_tests;
#[cfg(test)]
mod small_image;
#[cfg(test)]
mod waiting;
#[cfg(test)]
mod waiting_tests;
