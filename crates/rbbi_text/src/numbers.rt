//! The numbers that digits write.
ghost use Rattle.std.specs.Prelude.{◌≡◌, ◌+◌, ◌*◌, ◌<◌, ◌≤◌, ℕ, min, IfSome};
ghost use Rattle.std.specs.List.{list_all};
ghost use Rattle.std.specs.Char.{digit_value, is_ascii_digit, is_ascii_hexdigit};
ghost use Rattle.rbbi_text.specs.Numbers.{number, at_most, decimal, hexadecimal};

/// One more than the greatest `u32`: all numbers that are greater count as this.
const TOO_GREAT: u64 = 4_294_967_296;

/// One more digit after a number. A character that is no digit and no ASCII letter counts as 36.
fn with_digit(value: u64, base: u32, c: char) -> u64
    requires small { value ≤ 4294967296 }
    requires base { base ≤ 36 }
    ensures { result ≡ min (value * base + digit_value c) 4294967296 }
{
    let digit = c.to_digit(36).unwrap_or(36);
    (value * base as u64 + digit as u64).min(TOO_GREAT)
}

/// A number, where it is at most this.
fn at_most(value: u64, most: u32) -> Option<u32>
    ensures exact { result ≡ at_most most value }
    ensures bound { IfSome result (λ n. n ≤ most) }
    ensures cut { (n : ℕ) → value ≡ min n 4294967296 → result ≡ at_most most n }
{
    if value <= most as u64 {
        Some(value as u32)
    } else {
        None
    }
}

/// The number that characters write in a base from 1 to 36, where it is at most this. No digits
/// write 0. A letter of either case is a digit from 10 on.
pub fn number_of_characters(digits: &[char], base: u32, most: u32) -> Option<u32>
    requires some_base { 0 < base }
    requires base { base ≤ 36 }
    ensures { result ≡ at_most most (number base digits.now) }
{
    let mut value = 0;
    for digit in digits {
        value = with_digit(value, base, *digit);
    }
    at_most(value, most)
}

/// The number that bytes write in ASCII, as `number_of_characters`.
fn number_of_bytes(digits: &[u8], base: u32, most: u32) -> Option<u32>
    requires some_base { 0 < base }
    requires base { base ≤ 36 }
    ensures value { result ≡ at_most most (number base digits.now) }
    ensures bound { IfSome result (λ n. n ≤ most) }
{
    let mut value = 0;
    for digit in digits {
        value = with_digit(value, base, *digit as char);
    }
    at_most(value, most)
}

/// The number that one decimal digit or more write, if it is at most this.
pub fn decimal(text: &[u8], most: u32) -> Option<u32>
    ensures value { result ≡ decimal most text.now }
    ensures bound { IfSome result (λ n. n ≤ most) }
{
    if are_digits(text) && text.len() > 0 {
        number_of_bytes(text, 10, most)
    } else {
        None
    }
}

fn are_digits(text: &[u8]) -> bool
    ensures { result ≡ list_all is_ascii_digit text.now }
{
    text.iter().all(|byte| byte.is_ascii_digit())
}

/// The number that hexadecimal digits of either case write, where it is at most this and the digits
/// are `fewest` to `longest`. None for any other text.
pub fn hexadecimal(text: &[u8], fewest: usize, longest: usize, most: u32) -> Option<u32>
    ensures value { result ≡ hexadecimal fewest longest most text.now }
    ensures bound { IfSome result (λ n. n ≤ most) }
{
    if are_hexadecimal_digits(text) && fewest <= text.len() && text.len() <= longest {
        number_of_bytes(text, 16, most)
    } else {
        None
    }
}

fn are_hexadecimal_digits(text: &[u8]) -> bool
    ensures { result ≡ list_all is_ascii_hexdigit text.now }
{
    text.iter().all(|byte| byte.is_ascii_hexdigit())
}
