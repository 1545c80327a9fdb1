//! How the cells of a line are written.
ghost use Rattle.std.specs.Prelude.{◌≡◌, ◌+◌, ◌<◌, ◌≤◌, ◌++◌, take, length};
ghost use Rattle.row_writer.specs.Kept.{empty_line, line_end};
ghost use Rattle.row_writer.specs.KeptField.{opening, sign as sign_of};

use cell_text::{put_byte, put_bytes};

/// How the cells of a line are written.
#[derive(Clone, Copy, Debug, PartialEq, Eq)]
pub enum Style {
    /// As spans, `start-end`.
    Plain,
    /// As JSON, `[start,end]`.
    Json,
}

impl Style {
    /// The byte between the numbers of a span.
    #[inline(always)]
    pub(crate) fn sign(self) -> u8
        ensures { result ≡ sign_of self }
    {
        match self {
            Style::Plain => b'-',
            Style::Json => b',',
        }
    }
}

/// Writes what stands before the numbers of a span.
#[inline(always)]
pub(crate) fn put_opening(style: Style, buffer: &mut [u8], at: usize) -> usize
    requires { at < length buffer.old }
    ensures low { at ≤ result }
    ensures end { result ≤ at + 1 }
    ensures text { take result buffer.new ≡ take at buffer.old ++ opening style }
{
    match style {
        Style::Plain => at,
        Style::Json => put_byte(b'[', buffer, at),
    }
}

/// Writes the line of a row without variables.
pub(crate) fn put_empty(style: Style, buffer: &mut [u8], at: usize) -> usize
    requires { at + 3 ≤ length buffer.old }
    ensures end { result ≤ at + 3 }
    ensures text { take result buffer.new ≡ take at buffer.old ++ empty_line style }
{
    match style {
        Style::Plain => put_bytes(b"()\n", buffer, at),
        Style::Json => put_bytes(b"{}\n", buffer, at),
    }
}

/// Writes what stands behind the last cell.
#[inline(always)]
pub(crate) fn put_line_end(style: Style, buffer: &mut [u8], at: usize) -> usize
    requires { at + 2 ≤ length buffer.old }
    ensures end { result ≤ at + 2 }
    ensures text { take result buffer.new ≡ take at buffer.old ++ line_end style }
{
    match style {
        Style::Plain => put_byte(b'\n', buffer, at),
        Style::Json => put_bytes(b"}\n", buffer, at),
    }
}
