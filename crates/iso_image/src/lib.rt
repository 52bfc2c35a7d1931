//! What a half of an image holds, what becomes of it as bytes change, and what an image is refused for.
//!
//! Laws over bytes: a half shows its history (`IsHeld`); appended records count once their gate opens, all or none (`moments`); the
//! other half is free until its gate switches to it (`closed`). `half_place` and `kind_of` are the model's. Bytes are refused exactly
//! where they are an image of no history (`refusal`, `refused_where_there_is_no_history`), else they open to it (`opened`).
#![tactic(auto)]

mod kind;
pub mod laws;
mod open_error;
mod places;
pub mod refusal_laws;

pub use kind::kind_of;
pub use open_error::OpenError;
pub use places::{HalfPlace, base_size, half_place, half_size, image_size};
