//! Tests below the top call: of lines and the script of a bench; of `iso_alloc`, `plain_tx`, `store_laws` and a call of `iso_fs` over an
//! array in memory; and of `device_desk`, over disks whose tape is done to bytes, whole, torn or not at all.
//!
//! They show what no script shows; drawn calls on stores are cases. A test of desks is a list of steps and of their answers: one function
//! holds the desk, so each test is proved quickly.
#![tactic(auto)]

#[cfg(test)]
mod alloc_tests;
#[cfg(test)]
mod bench_tests;
#[cfg(test)]
mod desks;
#[cfg(test)]
mod file_tests;
#[cfg(test)]
mod law_tests;
#[cfg(test)]
mod number_tests;
#[cfg(test)]
mod plain_tests;
#[cfg(test)]
mod same;
#[cfg(test)]
mod size_tests;
#[cfg(test)]
mod steps;
#[cfg(test)]
mod tape_tests;
#[cfg(test)]
mod text_tests;
