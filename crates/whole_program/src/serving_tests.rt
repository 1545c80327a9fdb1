//! Serving with a small bound on the requests.
ghost use Rattle.std.specs.Prelude.{◌≡◌, ◌<◌};

use rematch_program::NoJudge;
use rm_outside::{MemorySink, MemorySource, Status};
use session_server::serve;
use span_core::Steps;
use span_tests::Tests;
use std::alloc::Global;
use std::marker::Brand;
use std::sync::ledger::{Blank, Ledger};
use std::test::Fail;

/// Three requests of one session.
const REQUESTS: &[u8] = b"{\"op\":\"open\",\"id\":1,\"query\":\"/!x{a}/\",\"doc\":\"aa\"}
{\"op\":\"next\",\"id\":1,\"n\":1}
{\"op\":\"close\",\"id\":1}
";

/// The replies to the first two.
const REPLIES: &[u8] = b"{\"id\":1,\"variables\":[\"x\"]}
{\"id\":1,\"more\":true,\"rows\":[{\"x\":[0,1]}]}
";

fn serves<L: Ledger>(
    alloc: Global,
    blank: Blank,
    most: u64,
    source: &mut MemorySource,
    out: &mut MemorySink,
    notes: &mut MemorySink,
) -> Status
    requires name { blank.name ≡ L.name }
    requires parts { blank.parts ≡ L.parts }
    requires some { 0 < L.parts }
{
    let mut steps = Steps::<L>::new(blank);
    let tests = Tests::<NoJudge>::new(alloc);
    serve(alloc, most, &tests, source, out, notes, &mut steps)
}

#[test]
fn two_of_three_requests(rt: HostRuntime) -> Result<(), Fail> {
    let alloc = rt.alloc();
    let mut held = Vec::new(alloc);
    held.extend_from_slice(REQUESTS)?;
    let mut source = MemorySource::new(held, Vec::new(alloc));
    let mut out = MemorySink::new(alloc, 1_000, Vec::new(alloc))?;
    let mut notes = MemorySink::new(alloc, 1_000, Vec::new(alloc))?;
    let status = serves::<Brand>(alloc, Blank::new(1), 2, &mut source, &mut out, &mut notes);
    assert_eq!(rt; status, Status::Long);
    assert_eq!(rt; out.bytes(), REPLIES);
    assert_eq!(rt; notes.bytes(), b"too many requests\n".as_slice());
    Ok(())
}
