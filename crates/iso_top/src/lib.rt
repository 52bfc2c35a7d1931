//! The call that the program makes: it makes an image or opens one, and answers a script on it, or runs its clients in threads.
//!
//! `met` has the promises of replies, order, crashes and stores, by the task; `complete`, `status`, `words`, `disk`, `input`,
//! `output` the causes of statuses. The crate `top_laws` says `met` in words of images and texts. `digest_of` is the digest of the last array
//! (`digest`), and writes nothing (`unwritten`). `docs/promises.md` has all, and what is not promised.
#![tactic(auto)]

mod beginning;
mod bench;
mod clients;
mod digest;
mod ended;
mod engine;
mod last_line;
mod opened;
mod recover;
mod result_line;
mod script;
mod top;

pub use digest::{DigestError, digest_of};
pub use ended::Ended;
pub use top::{alone, isotope};
