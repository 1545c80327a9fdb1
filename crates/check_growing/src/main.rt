//! Documents that grow, over all that stands below them.
//!
//! First a long one, on which nothing matches until its last piece: thousands of pieces, and a row asked for after
//! each. Then, for each query of a table, documents that are drawn and cut into pieces at drawn places, empty pieces
//! too: after each piece the rows must be those that the engine gives for the whole. Last what is shown piece by
//! piece: rows that come and go, a document that is refused and stays so, and one whose rows are refused while it
//! goes on.
//!
//! That all this is so is proved of the crates. What a run shows is what no contract says: that the calls succeed, and
//! that a long document takes the time of its pieces.
//!
//! The first case that is not as it must be ends the run with its fault.
#![tactic(auto)]

ghost use Rattle.std.specs.Prelude.{◌≡◌, ◌<◌};

mod calls;
mod cutting;
mod drawing;
mod fault;
mod groups;
mod long;
mod refusals;
mod same;

use calls::begin_text;
use cutting::{Tally, check_group};
use drawing::Draw;
use fault::Fault;
use groups::{GROUPS, Group, SCRIPTS, Script};
use growing_document::Growing;
use long::{Grown, PIECE_BYTES, PIECES, TEXT, grow_long};
use refusals::{Shown, show};
use span_core::Steps;
use std::marker::Brand;
use std::process::ExitCode;
use std::sync::ledger::{Blank, Ledger};

/// What the numbers that are drawn begin with.
const SEED: u64 = 37;

fn main(rt: HostRuntime) -> ExitCode {
    match check_all::<Brand>(&rt, Blank::new(1)) {
        Ok(()) => ExitCode::from(0),
        Err(fault) => ended_by(&rt, &fault),
    }
}

fn ended_by(rt: &HostRuntime, fault: &Fault) -> ExitCode {
    let _printed = println!(rt; "{fault}");
    ExitCode::from(1)
}

fn check_all<L: Ledger>(rt: &HostRuntime, blank: Blank) -> Result<(), Fault>
    requires name { blank.name ≡ L.name }
    requires parts { blank.parts ≡ L.parts }
    requires some { 0 < L.parts }
{
    let mut steps = Steps::<L>::new(blank);
    print_grown(rt, grow_long(rt.alloc(), &mut steps)?)?;
    print_groups(rt, &mut steps)?;
    print_scripts(rt, &mut steps)
}

fn print_grown(rt: &HostRuntime, grown: Grown) -> Result<(), Fault> {
    let Grown {
        rows,
        live,
        last,
        bytes,
    } = grown;
    println!(rt; "{TEXT} on {PIECES} pieces of {PIECE_BYTES} bytes: rows {rows} live {live}")?;
    println!(rt; "one more: bytes {bytes} row {last:?}")?;
    Ok(())
}

/// Compares pieces with the whole, group by group.
fn print_groups<L: Ledger>(rt: &HostRuntime, steps: &mut Steps<L>) -> Result<(), Fault> {
    let mut draw = Draw::new(SEED);
    for group in &GROUPS {
        print_group(rt, group, &mut draw, steps)?;
    }
    Ok(())
}

fn print_group<L: Ledger>(
    rt: &HostRuntime,
    group: &Group,
    draw: &mut Draw,
    steps: &mut Steps<L>,
) -> Result<(), Fault> {
    let tally = check_group(rt.alloc(), group, draw, steps)?;
    print_tally(rt, group.name, tally)
}

fn print_tally(rt: &HostRuntime, name: &str, tally: Tally) -> Result<(), Fault> {
    let (documents, pieces) = (tally.documents, tally.pieces);
    println!(rt; "{name}: documents {documents} pieces {pieces}, rows equal")?;
    Ok(())
}

/// Shows documents piece by piece.
fn print_scripts<L: Ledger>(rt: &HostRuntime, steps: &mut Steps<L>) -> Result<(), Fault> {
    for script in &SCRIPTS {
        print_head(rt, script.text, script.limit)?;
        print_script(rt, script, steps)?;
    }
    Ok(())
}

fn print_head(rt: &HostRuntime, text: &str, limit: u64) -> Result<(), Fault> {
    println!(rt; "{text} with the limit {limit}")?;
    Ok(())
}

fn print_script<L: Ledger>(
    rt: &HostRuntime,
    script: &Script,
    steps: &mut Steps<L>,
) -> Result<(), Fault> {
    let mut growing = begin_text(rt.alloc(), script.text, script.limit, steps)?;
    print_pieces(rt, &mut growing, script.pieces, steps)
}

fn print_pieces<L: Ledger>(
    rt: &HostRuntime,
    growing: &mut Growing,
    pieces: &[&str],
    steps: &mut Steps<L>,
) -> Result<(), Fault> {
    for piece in pieces {
        print_shown(rt, piece, show(growing, piece, steps)?)?;
    }
    Ok(())
}

fn print_shown(rt: &HostRuntime, piece: &str, shown: Shown) -> Result<(), Fault> {
    let (appended, bytes) = (shown.appended, shown.bytes);
    let (asked, rows, last) = (shown.asked, shown.came.rows, shown.came.last);
    println!(rt;
        "  {piece:?}: {appended:?}, bytes {bytes}; {asked:?}, rows {rows}, last {last:?}"
    )?;
    Ok(())
}
