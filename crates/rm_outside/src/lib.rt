//! What the program meets outside itself: a shelf of named documents, and sinks for its output.
//! Both count their faults, so that a failure can be told from a wrong answer.
//!
//! No contract can say which bytes the system's files and streams pass on. So the shelf is proved
//! over any opener, and the sinks over any writer of std, to pass on the bytes where these are told;
//! `SystemFiles`, the opener that `FileShelf` has, and what the system does below it are trusted.
#![tactic(auto)]

pub use file_shelf::{FileShelf, SystemFile, SystemFiles};
pub use line_input::LineInput;
pub use memory_shelf::MemoryShelf;
pub use memory_sink::MemorySink;
pub use memory_source::MemorySource;
pub use open_shelf::OpenShelf;
pub use opens::Opens;
pub use shelf::{FetchFault, Shelf};
pub use sink::{Sink, SinkFailed, SureSink};
pub use source::{LineFault, Source};
pub use status::Status;
pub use stream_sink::{NoteSink, OutSink};
pub use streams::{Counting, Reads, Takes};

mod file_shelf;
mod line_input;
mod lines;
mod memory_shelf;
mod memory_sink;
mod memory_source;
mod open_shelf;
mod opens;
mod shelf;
mod sink;
mod source;
mod status;
mod stream_sink;
mod streams;
