//! The tests of `iso_format`, `iso_image`, `iso_log` and `half_switch` over a disk in memory, of `iso_recover`, and of `iso_core`
//! over the images that it makes and opens.
#![tactic(auto)]

#[cfg(test)]
mod core_tests;
#[cfg(test)]
mod form_tests;
#[cfg(test)]
mod group_tests;
#[cfg(test)]
mod log_tests;
#[cfg(test)]
mod place_tests;
#[cfg(test)]
mod switch_tests;
