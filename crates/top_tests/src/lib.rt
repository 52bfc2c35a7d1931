//! Tests of the top call that no case of a file can say: drawn calls against a second program, gates and sources of a test's own,
//! stops of clients whose replies come in many orders, a mirror below the top call, and real files.
#![tactic(auto)]

#[cfg(test)]
mod asked;
#[cfg(test)]
mod drawn_lines;
#[cfg(test)]
mod plain_files;
#[cfg(test)]
mod tests_cut;
#[cfg(test)]
mod tests_drawn_clients;
#[cfg(test)]
mod tests_drawn_files;
#[cfg(test)]
mod tests_gate;
#[cfg(test)]
mod tests_kept;
#[cfg(test)]
mod tests_mirror;
#[cfg(test)]
mod tests_mirror_files;
#[cfg(test)]
mod tests_real_file;
#[cfg(test)]
mod tests_stops;
