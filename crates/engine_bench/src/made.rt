//! How long a made document takes.

use span_core::OutOfMemory;
use std::time::Instant;
use trial_maker::{MOST_LINES, trial};

/// Makes the document of a trial, and prints how many bytes it has.
pub(crate) fn measure_trial(rt: &HostRuntime, lines: u32) -> anyhow::Result<()> {
    if lines > MOST_LINES {
        println!(rt; "too many lines")?;
        return Ok(());
    }
    let start = Instant::now(rt)?;
    match trial(rt.alloc(), lines) {
        Ok(document) => {
            let end = Instant::now(rt)?;
            eprintln!(rt; "trial {lines}: {:?}", end.duration_since(start))?;
            println!(rt; "bytes {}", document.len())?;
        }
        Err(OutOfMemory) => println!(rt; "out of memory")?,
    }
    Ok(())
}
