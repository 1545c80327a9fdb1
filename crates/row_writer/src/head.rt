//! The head of the table: the names, with a tab between.
ghost use Rattle.std.specs.Prelude.{◌≡◌, ℕ, ◌+◌, ◌*◌, ◌≤◌, ◌++◌, take, length, OnOk, OnErr};
ghost use Rattle.row_writer.specs.Lines.{head_text};
ghost use Rattle.span_core.specs.declared.TheConstants.{MOST_NAME_BYTES};

use cell_text::{put_byte, put_bytes};
use span_core::{MOST_NAME_BYTES, OutOfMemory, VarSet};
use std::alloc::Allocator;

/// Appends the head of the table: the names with a tab between, and `()` without variables.
pub fn table_head<A: Allocator>(vars: &VarSet, out: &mut Vec<u8, A>) -> Result<(), OutOfMemory>
    ensures ok { OnOk result (out.new.items ≡ out.old.items ++ head_text vars.now) }
    ensures err { OnErr result (out.new.items ≡ out.old.items) }
    ensures few { length out.new.items ≤ length out.old.items + 3 + length vars.now * (MOST_NAME_BYTES + 1) }
{
    let before = out.len();
    out.resize(before + 3 + vars.len() * (MOST_NAME_BYTES + 1), 0)?;
    let end = put_head(vars, out.as_mut_slice(), before);
    out.truncate(end);
    Ok(())
}

fn put_head(vars: &VarSet, buffer: &mut [u8], at: usize) -> usize
    requires room { at + 3 + length vars.now * (MOST_NAME_BYTES + 1) ≤ length buffer.old }
    ensures end { result ≤ length buffer.new }
    ensures text { take result buffer.new ≡ take at buffer.old ++ head_text vars.now }
{
    if vars.len() == 0 {
        return put_bytes(b"()\n", buffer, at);
    }
    let mut end = put_bytes(vars.at(0).as_bytes(), buffer, at);
    for k in 1..vars.len() {
        end = put_byte(b'\t', buffer, end);
        end = put_bytes(vars.at(k).as_bytes(), buffer, end);
    }
    put_byte(b'\n', buffer, end)
}
