//! The text form of bytes, in which each byte is printable ASCII, and how it stands in a JSON string.
ghost use Rattle.std.specs.Prelude.{◌≡◌, ℕ, ◌+◌, ◌*◌, ◌≤◌, ◌++◌, ◌∷◌, take, length};
ghost use Rattle.json.specs.Print.{escape};
ghost use Rattle.row_writer.specs.Escapes.{escaped_form, form_twice};
ghost use Rattle.row_writer.specs.Lines.{byte_form, hex_form, text_form};

use cell_text::{hex_digits, put_byte, put_bytes};

/// Writes the text form of bytes at a position, and says where it ends.
pub fn put_form(bytes: &[u8], buffer: &mut [u8], at: usize) -> usize
    requires { at + 4 * length bytes.now ≤ length buffer.old }
    ensures end { result ≤ at + 4 * length bytes.now }
    ensures text { take result buffer.new ≡ take at buffer.old ++ text_form bytes.now }
{
    let mut end = at;
    for byte in bytes {
        end = put_byte_form(*byte, buffer, end);
    }
    end
}

/// Writes the text form of one byte.
#[inline(always)]
fn put_byte_form(byte: u8, buffer: &mut [u8], at: usize) -> usize
    requires { at + 4 ≤ length buffer.old }
    ensures end { result ≤ at + 4 }
    ensures text { take result buffer.new ≡ take at buffer.old ++ byte_form byte }
{
    match byte {
        b'\\' => put_bytes(b"\\\\", buffer, at),
        b'"' => put_bytes(b"\\\"", buffer, at),
        b'\n' => put_bytes(b"\\n", buffer, at),
        b'\t' => put_bytes(b"\\t", buffer, at),
        b'\r' => put_bytes(b"\\r", buffer, at),
        b' '..=b'~' => put_byte(byte, buffer, at),
        _ => put_hex(byte, buffer, at),
    }
}

/// Writes `\x` and the two digits of a byte.
fn put_hex(byte: u8, buffer: &mut [u8], at: usize) -> usize
    requires { at + 4 ≤ length buffer.old }
    ensures end { result ≤ at + 4 }
    ensures text { take result buffer.new ≡ take at buffer.old ++ hex_form byte }
{
    let digits = hex_digits(byte);
    let end = put_bytes(b"\\x", buffer, at);
    put_bytes(&digits, buffer, end)
}

/// Writes the text form of bytes as it stands in a JSON string, where its escapes are escaped once more, and says where
/// it ends.
pub fn put_escaped_form(bytes: &[u8], buffer: &mut [u8], at: usize) -> usize
    requires { at + 5 * length bytes.now ≤ length buffer.old }
    ensures end { result ≤ at + 5 * length bytes.now }
    ensures text { take result buffer.new ≡ take at buffer.old ++ escape (text_form bytes.now) }
{
    let mut end = at;
    for byte in bytes {
        end = put_escaped_byte(*byte, buffer, end);
    }
    end
}

/// Writes the text form of one byte as it stands in a JSON string.
#[inline(always)]
fn put_escaped_byte(byte: u8, buffer: &mut [u8], at: usize) -> usize
    requires { at + 5 ≤ length buffer.old }
    ensures end { result ≤ at + 5 }
    ensures text { take result buffer.new ≡ take at buffer.old ++ escaped_form byte }
{
    put_form_twice(byte, buffer, at)
}

/// The same, by what each byte comes to.
#[inline(always)]
fn put_form_twice(byte: u8, buffer: &mut [u8], at: usize) -> usize
    requires { at + 5 ≤ length buffer.old }
    ensures end { result ≤ at + 5 }
    ensures text { take result buffer.new ≡ take at buffer.old ++ form_twice byte }
{
    match byte {
        b'\\' => put_bytes(b"\\\\\\\\", buffer, at),
        b'"' => put_bytes(b"\\\\\\\"", buffer, at),
        b'\n' => put_bytes(b"\\\\n", buffer, at),
        b'\t' => put_bytes(b"\\\\t", buffer, at),
        b'\r' => put_bytes(b"\\\\r", buffer, at),
        b' '..=b'~' => put_byte(byte, buffer, at),
        _ => put_hex_twice(byte, buffer, at),
    }
}

/// Writes `\\x` and the two digits of a byte.
fn put_hex_twice(byte: u8, buffer: &mut [u8], at: usize) -> usize
    requires { at + 5 ≤ length buffer.old }
    ensures end { result ≤ at + 5 }
    ensures text { take result buffer.new ≡ take at buffer.old ++ 92 ∷ hex_form byte }
{
    let end = put_byte(b'\\', buffer, at);
    put_hex(byte, buffer, end)
}
