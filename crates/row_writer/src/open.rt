//! A line of which one number is open.
//!
//! Where rows differ in the end of one span alone, the bytes before that number and behind it stay. They are kept once, and a
//! line is then two copies of a fixed length, and the digits of a number. Of many numbers those with the same tens are
//! copies of one line.
ghost use Rattle.std.specs.Prelude.{◌≡◌, ◌+◌, ◌*◌, ◌≤◌, ◌++◌, take, drop, length, IfSome};
ghost use Rattle.std.specs.List.{flat_map};
ghost use Rattle.row_writer.specs.Open.{open_text, open_with};
ghost use Rattle.row_writer.specs.declared.open.TheConstants.{BACK_BYTES, FRONT_BYTES};

use crate::tens::Tens;
use cell_text::{put_bytes, put_number};
use std::marker::Model;

/// The most bytes before the number.
pub const FRONT_BYTES: usize = 64;

/// The most bytes behind it. Both and the number have room where a line of one field has it.
pub const BACK_BYTES: usize = 48;

/// A line with a number in it that is open, seen as the bytes before it and behind it.
#[derive(Drop)]
pub struct OpenLine {
    front: [u8; FRONT_BYTES],
    back: [u8; BACK_BYTES],
    front_len: usize,
    back_len: usize,
}

impl Model for OpenLine {
    ghost use Rattle.std.specs.Prelude.{◌≤◌, take};
    ghost use Rattle.row_writer.specs.Open.{Open, open_with};

    ghost Value = { Open };

    ghost view = { λ o. open_with (take o.front_len o.front) (take o.back_len o.back) };

    ghost invariant = { λ o. (o.front_len ≤ 64) × (o.back_len ≤ 48) };
}

impl OpenLine {
    /// The line with these bytes on the two sides of the number; None where one side has too many.
    pub fn of(before: &[u8], behind: &[u8]) -> Option<OpenLine>
        ensures { IfSome result (λ o. o ≡ open_with before.now behind.now) }
    {
        if before.len() > FRONT_BYTES || behind.len() > BACK_BYTES {
            return None;
        }
        let mut front = [0; FRONT_BYTES];
        let mut back = [0; BACK_BYTES];
        let front_len = put_bytes(before, &mut front, 0);
        let back_len = put_bytes(behind, &mut back, 0);
        Some(OpenLine {
            front,
            back,
            front_len,
            back_len,
        })
    }

    /// The line with the bytes of a buffer from two positions on; None where one side has too many. Both are copied in a fixed
    /// length, with bytes behind them.
    #[inline(always)]
    pub(crate) fn taken(
        buffer: &[u8],
        from: usize,
        front_len: usize,
        behind: usize,
        back_len: usize,
    ) -> Option<OpenLine>
        requires front { from + FRONT_BYTES ≤ length buffer.now }
        requires back { behind + BACK_BYTES ≤ length buffer.now }
        ensures { IfSome result (λ o. o ≡ open_with (take front_len (drop from buffer.now)) (take back_len (drop behind buffer.now))) }
    {
        if front_len > FRONT_BYTES || back_len > BACK_BYTES {
            return None;
        }
        let mut front = [0; FRONT_BYTES];
        let mut back = [0; BACK_BYTES];
        front.copy_from_slice(&buffer[from..from + FRONT_BYTES]);
        back.copy_from_slice(&buffer[behind..behind + BACK_BYTES]);
        Some(OpenLine {
            front,
            back,
            front_len,
            back_len,
        })
    }

    /// Writes the line with this number at a position, and says where it ends.
    #[inline(always)]
    pub fn put(&self, number: u32, buffer: &mut [u8], at: usize) -> usize
        requires { at + 128 ≤ length buffer.old }
        ensures end { result ≤ at + 122 }
        ensures text { take result buffer.new ≡ take at buffer.old ++ open_text self.now number }
    {
        let _front = put_bytes(&self.front, buffer, at);
        let end = put_number(number, buffer, at + self.front_len);
        let _back = put_bytes(&self.back, buffer, end);
        end + self.back_len
    }

    /// Writes the line with each of these numbers, one behind another, from a position on, and says where they end.
    pub fn put_all(&self, numbers: &[u32], buffer: &mut [u8], at: usize) -> usize
        requires { at + 128 * length numbers.now ≤ length buffer.old }
        ensures end { result ≤ at + 122 * length numbers.now }
        ensures text { take result buffer.new ≡ take at buffer.old ++ flat_map (open_text self.now) numbers.now }
    {
        let mut tens = Tens::of(self);
        let mut end = at;
        for number in numbers {
            end = tens.put(self, *number, buffer, end);
        }
        end
    }

    /// Writes what is before the number to the front of some bytes.
    #[inline(always)]
    pub(crate) fn put_front(&self, bytes: &mut [u8])
        requires { 128 ≤ length bytes.old }
        ensures { take (length self.now.front) bytes.new ≡ self.now.front }
    {
        let _front = put_bytes(&self.front, bytes, 0);
    }

    /// Writes a number and what is behind it, where what is before it is written, and says where the number ends.
    #[inline(always)]
    pub(crate) fn put_rest(&self, number: u32, bytes: &mut [u8]) -> usize
        requires room { 128 ≤ length bytes.old }
        requires front { take (length self.now.front) bytes.old ≡ self.now.front }
        ensures front { take (length self.now.front) bytes.new ≡ self.now.front }
        ensures some { 1 ≤ result }
        ensures end { result + length self.now.back ≤ 122 }
        ensures text { take (result + length self.now.back) bytes.new ≡ open_text self.now number }
    {
        let end = put_number(number, bytes, self.front_len);
        let _back = put_bytes(&self.back, bytes, end);
        end
    }

    /// How many bytes are behind the number.
    #[inline(always)]
    pub(crate) fn behind(&self) -> usize
        ensures { result ≡ length self.now.back }
    {
        self.back_len
    }
}
