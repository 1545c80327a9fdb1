//! Calls over a heap without room: each growth is refused, and what stood before it stays.

use cell_text::{push_bytes, push_cell};
use linked_list_allocator::LocalHeap;
use row_cursor::print;
use row_writer::{json_line, spans_line, table_head, table_line};
use span_core::{Name, OutOfMemory, Row, Span, VarSet};
use std::alloc::Global;

/// What stands before what is refused.
const BEFORE: &[u8] = b"eight...";

/// Whether all calls are refused.
pub(crate) fn all_are_refused(alloc: Global) -> Result<bool, OutOfMemory> {
    Ok(cells_are_refused(alloc)? && lines_are_refused(alloc)? && cursors_are_refused(alloc)?)
}

/// The names x and yy, or fewer.
fn names(count: usize) -> VarSet {
    let mut vars = VarSet::empty();
    for text in [b"x".as_slice(), b"yy".as_slice()] {
        if vars.len() < count {
            if let Some(name) = Name::read(text) {
                let _ = vars.add(name);
            }
        }
    }
    vars
}

fn cells_are_refused(alloc: Global) -> Result<bool, OutOfMemory> {
    let heap = LocalHeap::new(alloc, 16)?;
    let mut out = Vec::new(&heap);
    push_bytes(BEFORE, &mut out)?;
    let refused = Err(OutOfMemory);
    let cell = push_cell(Some(Span::new(7, u32::MAX)), &mut out) == refused;
    let bytes = push_bytes(b"nine.....", &mut out) == refused;
    Ok(cell && bytes && out.as_slice() == BEFORE)
}

fn lines_are_refused(alloc: Global) -> Result<bool, OutOfMemory> {
    let vars = names(1);
    let mut row = Row::empty();
    row.push(Some(Span::new(0, 2)));
    if vars.len() != 1 {
        return Ok(false);
    }
    let heap = LocalHeap::new(alloc, 16)?;
    let mut out = Vec::new(&heap);
    push_bytes(BEFORE, &mut out)?;
    let refused = Err(OutOfMemory);
    let spans = spans_line(&vars, &row, b"ab", true, &mut out) == refused;
    let head = table_head(&vars, &mut out) == refused;
    let table = table_line(&vars, &row, b"ab", true, &mut out) == refused;
    let json = json_line(alloc, &vars, &row, b"ab", true, &mut out) == refused;
    Ok(spans && head && table && json && out.as_slice() == BEFORE)
}

/// In a heap of 48 bytes the text fits the first blocks, and the growth after them is refused.
fn cursors_are_refused(alloc: Global) -> Result<bool, OutOfMemory> {
    let vars = names(2);
    let mut row = Row::empty();
    row.push(Some(Span::new(0, 12)));
    row.push(Some(Span::new(u32::MAX, u32::MAX)));
    if vars.len() != 2 {
        return Ok(false);
    }
    for size in [16, 32, 48] {
        let heap = LocalHeap::new(alloc, size)?;
        let mut out = Vec::new(&heap);
        push_bytes(BEFORE, &mut out)?;
        let refused = print(&row, &vars, u32::MAX, &mut out) == Err(OutOfMemory);
        if !refused || out.as_slice() != BEFORE {
            return Ok(false);
        }
    }
    Ok(true)
}
