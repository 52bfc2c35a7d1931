//! The tests of `counts`, `iso_disk`, `iso_io`, `iso_memdisk`, `commit_gate`, `kept_disk`, `file_disk` and `queued_disk`.
#![tactic(auto)]

#[cfg(test)]
mod count_tests;
#[cfg(test)]
mod draw_tests;
#[cfg(test)]
mod file_tests;
#[cfg(test)]
mod gate_tests;
#[cfg(test)]
mod kept_tests;
#[cfg(test)]
mod memory_tests;
#[cfg(test)]
mod queued_tests;
#[cfg(test)]
mod steps;
#[cfg(test)]
mod stream_tests;
#[cfg(test)]
mod untold_tests;
