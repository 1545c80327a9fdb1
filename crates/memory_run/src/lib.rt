//! A run of the program in memory, for a caller in the same process: its words, the documents that names hold, and its standard
//! input are bytes of the caller's, and what it writes is kept.
#![tactic(auto)]

pub use memory_run::{DocumentFault, Ended, MemoryRun};

mod memory_run;
