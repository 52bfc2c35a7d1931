//! Where the bytes of a script come from and where the replies go: the traits `Source` and `Sink`, each over one state. A call that
//! is Ok raised no count of faults.
//!
//! `put_all` puts a whole piece or a first part; `take_all` takes all or says why not. The forms in memory fail only at calls named
//! for it, or for memory. Over std's readers and writers the bytes are known (`reader`, `writer`); one that failed takes nothing more
//! (`broken`).
#![tactic(auto)]

mod mem_sink;
mod mem_source;
mod sink;
mod source;
mod std_sink;
mod std_source;

pub use mem_sink::MemSink;
pub use mem_source::MemSource;
pub use sink::{PutError, Sink, SinkFault, put_all};
pub use source::{Source, SourceFault, TakeError, take_all};
pub use std_sink::StdSink;
pub use std_source::StdSource;
