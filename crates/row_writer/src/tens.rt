//! Open lines of numbers that differ in their last digit alone.
//!
//! The line of the first such number is kept, and the others are a copy of it with another digit.
ghost use Rattle.std.specs.Prelude.{◌≡◌, ◌+◌, ◌-◌, ◌<◌, ◌≤◌, ◌++◌, take, length, set};
ghost use Rattle.row_writer.specs.Open.{Open, AreTens, open_text};

use crate::open::OpenLine;
use cell_text::put_bytes;

/// The bytes that a line is kept in, which has 122 at most.
const LINE_BYTES: usize = 128;

/// The bytes that are copied of a line that has no more.
const SHORT_BYTES: usize = 64;

/// The open line with a number, and where the last digit of the number is. `first` is the number with the digit 0.
#[derive(Drop)]
pub(crate) struct Tens {
    bytes: [u8; LINE_BYTES],
    first: u64,
    digit: usize,
    len: usize,
}

impl Tens {
    /// The open line without a number: none is as high as `first`.
    #[inline(always)]
    pub(crate) fn of(line: &OpenLine) -> Tens
        ensures { AreTens line.now result.first result.digit result.len result.bytes }
    {
        let mut bytes = [0; LINE_BYTES];
        line.put_front(&mut bytes);
        Tens {
            bytes,
            first: u64::MAX,
            digit: 0,
            len: 1,
        }
    }

    /// Writes the open line with a number at a position, and says where it ends.
    #[inline(always)]
    pub(crate) fn put(
        &mut self,
        line: &OpenLine,
        number: u32,
        buffer: &mut [u8],
        at: usize,
    ) -> usize
        requires room { at + 128 ≤ length buffer.old }
        requires tens { AreTens line.now self.old.first self.old.digit self.old.len self.old.bytes }
        ensures tens { AreTens line.now self.new.first self.new.digit self.new.len self.new.bytes }
        ensures end { result ≤ at + 122 }
        ensures text { take result buffer.new ≡ take at buffer.old ++ open_text line.now number }
    {
        self.turn(line, number);
        self.put_digit(u64::from(number), buffer, at)
    }

    /// Keeps the open line with a number, unless that with its tens is kept.
    #[inline(always)]
    fn turn(&mut self, line: &OpenLine, number: u32)
        requires { AreTens line.now self.old.first self.old.digit self.old.len self.old.bytes }
        ensures tens { AreTens line.now self.new.first self.new.digit self.new.len self.new.bytes }
        ensures low { self.new.first ≤ number }
        ensures high { number < self.new.first + 10 }
    {
        let whole = u64::from(number);
        if self.first <= whole && whole - self.first < 10 {
            return;
        }
        let end = line.put_rest(number, &mut self.bytes);
        self.first = u64::from(number - number % 10);
        self.digit = end - 1;
        self.len = end + line.behind();
    }

    /// Writes the line that is kept with another last digit.
    #[inline(always)]
    fn put_digit(&self, number: u64, buffer: &mut [u8], at: usize) -> usize
        requires room { at + 128 ≤ length buffer.old }
        requires within { self.now.digit < self.now.len }
        requires few { self.now.len ≤ 122 }
        requires low { self.now.first ≤ number }
        requires high { number < self.now.first + 10 }
        ensures end { result ≡ at + self.now.len }
        ensures text { take result buffer.new
            ≡ take at buffer.old ++ take self.now.len (set self.now.bytes self.now.digit (48 + (number - self.now.first))) }
    {
        let end = put_copy(&self.bytes, self.len, buffer, at);
        buffer[at + self.digit] = b'0' + (number - self.first) as u8;
        end
    }
}

/// Writes the first bytes of a line, and of those behind them what a copy of a fixed length takes.
#[inline(always)]
fn put_copy(bytes: &[u8; LINE_BYTES], len: usize, buffer: &mut [u8], at: usize) -> usize
    requires room { at + 128 ≤ length buffer.old }
    requires few { len ≤ 122 }
    ensures end { result ≡ at + len }
    ensures text { take result buffer.new ≡ take at buffer.old ++ take len bytes.now }
{
    if len > SHORT_BYTES {
        let _whole = put_bytes(bytes, buffer, at);
        return at + len;
    }
    let _half = put_bytes(&bytes[..SHORT_BYTES], buffer, at);
    at + len
}
