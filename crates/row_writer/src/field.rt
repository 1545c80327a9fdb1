//! A field of a line, kept from one row to the next.
ghost use Rattle.std.specs.Prelude.{◌≡◌, ℕ, ◌+◌, ◌≤◌, ◌++◌, ◌∷◌, [], take, length, IsTrue, Some};
ghost use Rattle.std.specs.Bool.{OnTrue, OnFalse};
ghost use Rattle.std.specs.Fmt.{decimal};
ghost use Rattle.serde_json.specs.Data.{string};
ghost use Rattle.serde_json.specs.Written.{compact_text};
ghost use Rattle.row_writer.specs.Kept.{head_with, member_head};
ghost use Rattle.row_writer.specs.KeptField.{absent, cell_front, opening, sign as sign_of};
ghost use Rattle.row_writer.specs.declared.style.Style.TheVariants as style;

use crate::style::{Style, put_opening};
use cell_text::{put_byte, put_bytes, put_number};
use span_core::{Name, Span};
use std::marker::Model;

/// The bytes that a field is kept in: signs, a name, and two numbers take 58 at most.
pub const FIELD_BYTES: usize = 64;

/// What stands before a cell, and the cell of a span.
///
/// It is seen as the two. The bytes have the head, the span's start and the sign, and where `whole` is true its
/// end too. Where only the end of a span changes it is written where the line is, and the bytes stay: bytes that
/// were just written would have to be waited for.
#[derive(Drop)]
pub struct Field {
    bytes: [u8; FIELD_BYTES],
    head: usize,
    first: usize,
    middle: usize,
    len: usize,
    span: Span,
    whole: bool,
    style: Style,
}

impl Model for Field {
    ghost use Rattle.row_writer.specs.Kept.{Field as Kept};

    ghost Value = { Kept };

    ghost use Rattle.row_writer.specs.KeptField.{field_of, IsFieldKept};

    ghost view = { field_of };

    ghost invariant = { IsFieldKept };
}

impl Field {
    /// A field with a name and `=` before its cell, and a space before them in all but the first field.
    pub(crate) fn named(first: bool, name: &Name) -> Field
        ensures first { OnTrue first (result.head ≡ head_with (name.now ++ 61 ∷ []) style.Plain) }
        ensures later { OnFalse first (result.head ≡ head_with (32 ∷ (name.now ++ 61 ∷ [])) style.Plain) }
    {
        let mut bytes = [0; FIELD_BYTES];
        let at = if first {
            0
        } else {
            put_byte(b' ', &mut bytes, 0)
        };
        let at = put_bytes(name.as_bytes(), &mut bytes, at);
        let head = put_byte(b'=', &mut bytes, at);
        Field::after(bytes, head, Style::Plain)
    }

    /// A field with nothing before its cell, and a tab in all but the first field.
    pub(crate) fn tabbed(first: bool) -> Field
        ensures first { OnTrue first (result.head ≡ head_with [] style.Plain) }
        ensures later { OnFalse first (result.head ≡ head_with (9 ∷ []) style.Plain) }
    {
        let mut bytes = [0; FIELD_BYTES];
        let head = if first {
            0
        } else {
            put_byte(b'\t', &mut bytes, 0)
        };
        Field::after(bytes, head, Style::Plain)
    }

    /// A field with a sign, a name as a string, and a colon before its cell.
    pub(crate) fn member(sign: u8, name: &Name) -> Field
        ensures { result.head ≡ member_head sign name.now }
    {
        let mut bytes = [0; FIELD_BYTES];
        let at = put_byte(sign, &mut bytes, 0);
        let at = put_name(name, &mut bytes, at);
        let head = put_byte(b':', &mut bytes, at);
        Field::after(bytes, head, Style::Json)
    }

    /// The field with the first bytes before its cell.
    fn after(mut bytes: [u8; FIELD_BYTES], head: usize, style: Style) -> Field
        requires { head ≤ 36 }
        ensures { result.head ≡ head_with (take head bytes) style }
    {
        let span = Span::new(0, 0);
        let first = put_opening(style, &mut bytes, head);
        let end = put_number(span.start, &mut bytes, first);
        let middle = put_byte(style.sign(), &mut bytes, end);
        let len = put_number(span.end, &mut bytes, middle);
        Field {
            bytes,
            head,
            first,
            middle,
            len,
            span,
            whole: true,
            style,
        }
    }

    /// How the cell is written.
    #[inline(always)]
    pub(crate) fn style(&self) -> Style
        ensures { result ≡ self.now.head.style }
    {
        self.style
    }

    /// Writes the head and the cell of a span up to its second number at a position, and says where they end. A span
    /// that is there is taken.
    #[inline(always)]
    pub(crate) fn put(&mut self, span: Option<Span>, buffer: &mut [u8], at: usize) -> usize
        requires { at + FIELD_BYTES ≤ length buffer.old }
        ensures head { self.new.head ≡ self.old.head }
        ensures end { result ≤ at + 58 }
        ensures text { take result buffer.new ≡ take at buffer.old ++ (self.old.head.before ++ cell_front self.old.head.style span) }
    {
        match span {
            Some(span) => self.put_span(span, buffer, at),
            None => self.put_absent(buffer, at),
        }
    }

    /// Takes a span, and writes the head and the cell up to the end of the span at a position.
    pub(crate) fn put_start(&mut self, span: Span, buffer: &mut [u8], at: usize) -> usize
        requires { at + FIELD_BYTES ≤ length buffer.old }
        ensures head { self.new.head ≡ self.old.head }
        ensures end { result ≤ at + 48 }
        ensures text { take result buffer.new ≡ take at buffer.old ++
            (self.old.head.before ++ (opening self.old.head.style ++ (decimal span.start ++ sign_of self.old.head.style ∷ []))) }
    {
        if span.start != self.span.start {
            self.renew_start(span);
            return self.put_half(buffer, at);
        }
        self.put_half(buffer, at)
    }

    /// Writes the head and the cell of the span up to its end at a position.
    fn put_half(&self, buffer: &mut [u8], at: usize) -> usize
        requires { at + FIELD_BYTES ≤ length buffer.old }
        ensures end { result ≤ at + 48 }
        ensures text { take result buffer.new ≡ take at buffer.old ++
            (self.now.head.before ++ (opening self.now.head.style ++ (decimal self.now.span.start ++ sign_of self.now.head.style ∷ []))) }
    {
        let _whole = put_bytes(&self.bytes, buffer, at);
        at + self.middle
    }

    /// Writes the head and the cell of an absent span at a position. The span that was taken last stays.
    #[inline(always)]
    fn put_absent(&self, buffer: &mut [u8], at: usize) -> usize
        requires { at + FIELD_BYTES ≤ length buffer.old }
        ensures end { result ≤ at + 58 }
        ensures text { take result buffer.new ≡ take at buffer.old ++ (self.now.head.before ++ absent self.now.head.style) }
    {
        let _whole = put_bytes(&self.bytes, buffer, at);
        put_no_span(self.style, buffer, at + self.head)
    }

    /// Takes a span, writes the head and its cell up to the second number at a position, and says where they end.
    #[inline(always)]
    fn put_span(&mut self, span: Span, buffer: &mut [u8], at: usize) -> usize
        requires { at + FIELD_BYTES ≤ length buffer.old }
        ensures head { self.new.head ≡ self.old.head }
        ensures end { result ≤ at + 58 }
        ensures text { take result buffer.new ≡ take at buffer.old ++ (self.old.head.before ++ cell_front self.old.head.style (Some span)) }
    {
        if span.start != self.span.start {
            self.renew(span);
            return self.put_whole(buffer, at);
        }
        if span.end != self.span.end {
            return self.put_end(span, buffer, at);
        }
        if !self.whole {
            self.renew_end(span);
            return self.put_whole(buffer, at);
        }
        self.put_whole(buffer, at)
    }

    /// Writes both numbers of a span.
    #[inline(always)]
    fn renew(&mut self, span: Span)
        ensures head { self.new.head ≡ self.old.head }
        ensures span { self.new.span ≡ span }
        ensures whole { IsTrue self.new.whole }
    {
        let end = put_number(span.start, &mut self.bytes, self.first);
        let middle = put_byte(self.style.sign(), &mut self.bytes, end);
        let len = put_number(span.end, &mut self.bytes, middle);
        self.middle = middle;
        self.len = len;
        self.span = span;
        self.whole = true;
    }

    /// Writes the start of a span.
    #[inline(always)]
    fn renew_start(&mut self, span: Span)
        ensures head { self.new.head ≡ self.old.head }
        ensures span { self.new.span ≡ span }
    {
        let end = put_number(span.start, &mut self.bytes, self.first);
        let middle = put_byte(self.style.sign(), &mut self.bytes, end);
        self.middle = middle;
        self.span = span;
        self.whole = false;
    }

    /// Writes the end of a span that starts where the last one did.
    #[inline(always)]
    fn renew_end(&mut self, span: Span)
        requires { span.start ≡ self.old.span.start }
        ensures head { self.new.head ≡ self.old.head }
        ensures span { self.new.span ≡ span }
        ensures whole { IsTrue self.new.whole }
    {
        let len = put_number(span.end, &mut self.bytes, self.middle);
        self.len = len;
        self.span = span;
        self.whole = true;
    }

    /// Writes the head and the cell up to its second number at a position.
    #[inline(always)]
    fn put_whole(&self, buffer: &mut [u8], at: usize) -> usize
        requires room { at + FIELD_BYTES ≤ length buffer.old }
        requires whole { IsTrue self.now.whole }
        ensures end { result ≤ at + 58 }
        ensures text { take result buffer.new ≡ take at buffer.old ++
            (self.now.head.before ++ cell_front self.now.head.style (Some self.now.span)) }
    {
        let _whole = put_bytes(&self.bytes, buffer, at);
        at + self.len
    }

    /// Takes a span that starts where the last one did, and writes the head and the cell up to its second number at a
    /// position.
    #[inline(always)]
    fn put_end(&mut self, span: Span, buffer: &mut [u8], at: usize) -> usize
        requires room { at + FIELD_BYTES ≤ length buffer.old }
        requires start { span.start ≡ self.old.span.start }
        ensures head { self.new.head ≡ self.old.head }
        ensures end { result ≤ at + 58 }
        ensures text { take result buffer.new ≡ take at buffer.old ++ (self.old.head.before ++ cell_front self.old.head.style (Some span)) }
    {
        self.span = span;
        self.whole = false;
        let _whole = put_bytes(&self.bytes, buffer, at);
        put_number(span.end, buffer, at + self.middle)
    }
}

/// Writes the cell of an absent span.
#[inline(always)]
fn put_no_span(style: Style, buffer: &mut [u8], at: usize) -> usize
    requires { at + 4 ≤ length buffer.old }
    ensures end { result ≤ at + 4 }
    ensures text { take result buffer.new ≡ take at buffer.old ++ absent style }
{
    match style {
        Style::Plain => put_byte(b'-', buffer, at),
        Style::Json => put_bytes(b"null", buffer, at),
    }
}

/// Writes a name as a string, in which no byte of it needs an escape.
fn put_name(name: &Name, buffer: &mut [u8], at: usize) -> usize
    requires { at + 34 ≤ length buffer.old }
    ensures end { result ≤ at + 34 }
    ensures text { take result buffer.new ≡ take at buffer.old ++ compact_text (string name.now) }
{
    let end = put_byte(b'"', buffer, at);
    let end = put_bytes(name.as_bytes(), buffer, end);
    put_byte(b'"', buffer, end)
}
