//! The tests of `iso_model` and of what a core rests on: `byte_marks`, `merge_write`, `conflict_rule`, `tx_table`, `mv_index`,
//! `version_trim` and `version_read`.
#![tactic(auto)]

#[cfg(test)]
mod data_tests;
#[cfg(test)]
mod decision_tests;
#[cfg(test)]
mod marks_tests;
#[cfg(test)]
mod patch_tests;
#[cfg(test)]
mod reading_tests;
#[cfg(test)]
mod table_tests;
#[cfg(test)]
mod trim_tests;
#[cfg(test)]
mod versions_tests;
