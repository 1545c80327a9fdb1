//! The relations of the tests, and the code that decides them.
ghost use Rattle.std.specs.Prelude.{◌≡◌, ◌<◌, ◌-◌, ◌%◌, false, cond, reverse};
ghost use Rattle.std.specs.List.{list_all};
ghost use Rattle.std.specs.Char.{is_ascii_digit, is_ascii_uppercase};
ghost use Rattle.known_tests.specs.Relations.{is_luhn, is_upper, luhn_sum, doubled};

/// The number of the relation `luhn`.
pub const LUHN: u32 = 1;

/// The number of the relation `upper`.
pub const UPPER: u32 = 2;

/// Whether the bytes are digits, at least one, whose sum is divisible by 10 when, from the right,
/// every second digit is doubled and 9 is taken off a result above 9. This is the check of H. P.
/// Luhn, "Computer for Verifying Numbers" (US patent 2,950,048, 1960).
pub fn luhn(bytes: &[u8]) -> bool
    ensures { result ≡ is_luhn bytes.now }
{
    match bytes.split_first() {
        Some(_) => all_digits(bytes) && last_digit_of_sum(bytes) == 0,
        None => false,
    }
}

/// Whether the bytes are capital ASCII letters, at least one.
pub fn upper(bytes: &[u8]) -> bool
    ensures { result ≡ is_upper bytes.now }
{
    match bytes.split_first() {
        Some(_) => all_capitals(bytes),
        None => false,
    }
}

/// Whether each byte is a capital letter.
fn all_capitals(bytes: &[u8]) -> bool
    ensures { result ≡ list_all is_ascii_uppercase bytes.now }
{
    bytes.iter().all(|b| b.is_ascii_uppercase())
}

/// Whether each byte is a digit.
fn all_digits(bytes: &[u8]) -> bool
    ensures { result ≡ list_all is_ascii_digit bytes.now }
{
    bytes.iter().all(|b| b.is_ascii_digit())
}

/// The last digit of the sum of the digits, of which every second one from the right is doubled.
fn last_digit_of_sum(digits: &[u8]) -> u32
    ensures { result ≡ luhn_sum false (reverse digits.now) % 10 }
{
    let mut sum = 0;
    let mut double = false;
    let mut rest = digits;
    while let Some((last, front)) = rest.split_last() {
        sum = (sum + counted(*last, double)) % 10;
        double = !double;
        rest = front;
    }
    sum
}

/// What a digit counts.
fn counted(digit: u8, double: bool) -> u32
    ensures value { result ≡ cond double (doubled (digit - 48)) (digit - 48) }
    ensures small { result < 512 }
{
    let value = u32::from(digit.saturating_sub(b'0'));
    if !double {
        value
    } else if 2 * value > 9 {
        2 * value - 9
    } else {
        2 * value
    }
}
