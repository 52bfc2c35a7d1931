//! The words of the command line, and what they ask for. `read_words` gives the task and the image that the words ask for, or that
//! they ask for none, exactly (`request`), with numbers inside their limits (`limits`).
//!
//! By the laws (`laws`) every image can be opened, every valid geometry made and every bench run by some words. Rows of words with
//! and without a task compute (`rows`). Nothing is opened here.
#![tactic(auto)]

mod command;
pub mod laws;
mod long_number;
mod matching;
mod request;
pub mod rows;
mod task;
mod value;

pub use request::{Request, read_words};
pub use task::Task;
