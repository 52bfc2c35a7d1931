//! A ticket lock whose value represents a list of entries. Each turn adds one entry to it. The list is carried by the passes for
//! contracts alone. Nothing of it is stored.
//!
//! What a pass has seen is a beginning of that list, and who holds which number is known (`new`, `take`, `give`, `split`, `join`,
//! `close`). An entry may take back several numbers, and none is out afterwards (`taken` of `give`). `take` waits, maybe for ever.
#![tactic(auto)]

mod lock;
mod plays;
mod turn;
mod view;

pub use lock::{Pass, TurnLock};
pub use turn::Turn;
pub use view::{LAST, Names, Stage, Stands, View};
