//! The text of a script. `parse_line` and `parse_whole_line` give what a line says, or the first test that it fails, for every
//! operation; the same with `_into` leave it in a place. `print_reply` and `push_reply` give the exact text of a reply (`reply_line`).
//!
//! `print_line` spells a line (`text`), which is read as that line and no other (`printed_lines_are_read`). `Generator` and `Round`
//! draw the numbers and the rounds of the definitions. What a line does is not known here.
#![tactic(auto)]

mod argument;
mod ending;
mod files;
mod generator;
mod grouped;
mod hex_digits;
pub mod laws;
mod line;
mod operation;
mod pairs;
mod print;
mod push;
mod reply;
mod reply_line;
mod round;
mod said;
mod word;

pub use generator::Generator;
pub use line::{parse_line, parse_line_into, parse_whole_line, parse_whole_line_into};
pub use print::print_line;
pub use push::write_hex;
pub use reply::{MOST_SHOWN, print_reply, push_reply};
pub use reply_line::ReplyLine;
pub use round::Round;
pub use script_model::{BadLine, Line, LineError, Op, Parsed, Reply};
pub use word::number_of;
