//! The tests of `turn_lock` and `iso_shared`.
#![tactic(auto)]

#[cfg(test)]
mod clients;
#[cfg(test)]
mod device_tests;
#[cfg(test)]
mod groups;
#[cfg(test)]
mod number_tests;
#[cfg(test)]
mod steps;
#[cfg(test)]
mod turn_tests;
