// Document 01, 'Lines': digits and bytes.
ghost use Rattle.std.specs.Prelude.{◌≡◌, ◌+◌, ◌*◌, ◌%◌, ◌<◌, length};
ghost use Rattle.frames.specs.Digits.{no_digit, digit, digit_of, byte_at};
ghost use Rattle.frames.specs.Frames.{is_digit};

// What `value` answers where a character is no digit. It is a number and no Option, since `byte` counts such a character as this number (byte_at).
const NO_DIGIT: u8 = 16;

// The value of a digit, NO_DIGIT where the character is none.
#[tactic(auto, unfolding(crate::specs::Digits::digit, crate::specs::Digits::place_of))]
pub fn value(c: u8) -> u8
    ensures { result ≡ digit c }
{
    match c {
        b'0' => 0,
        b'1' => 1,
        b'2' => 2,
        b'3' => 3,
        b'4' => 4,
        b'5' => 5,
        b'6' => 6,
        b'7' => 7,
        b'8' => 8,
        b'9' => 9,
        b'A' => 10,
        b'B' => 11,
        b'C' => 12,
        b'D' => 13,
        b'E' => 14,
        b'F' => 15,
        _ => NO_DIGIT,
    }
}

// The same by the two ranges of digits in ASCII, so that several characters can be valued at once. A character alone is valued faster by `value`.
#[tactic(auto, using(crate::proofs::Ascii::digit_low, crate::proofs::Ascii::digit_high, crate::proofs::Ascii::digit_none))]
fn value_by_range(c: u8) -> u8
    ensures { result ≡ digit c }
{
    match c {
        b'0'..=b'9' => c - 48,
        b'A'..=b'F' => c - 55,
        _ => NO_DIGIT,
    }
}

// Whether a character is a digit: by the two ranges, likewise.
#[tactic(auto, using(crate::proofs::Ascii::digit_low, crate::proofs::Ascii::digit_high, crate::proofs::Ascii::digit_none))]
pub fn is_digit(c: u8) -> bool
    ensures { result ≡ is_digit c }
{
    matches!(c, b'0'..=b'9' | b'A'..=b'F')
}

// The digit of a value.
#[tactic(auto, unfolding(crate::specs::Digits::digit_of))]
pub fn digit_of(v: u8) -> u8
    requires { v < no_digit }
    ensures { result ≡ digit_of v }
{
    match v {
        0..=9 => v + 48,
        _ => v + 55,
    }
}

// Byte i of a line. It is inlined, as `field` is: calls would be a good part of what reading costs.
#[inline(always)]
#[tactic(auto, unfolding(crate::specs::Digits::byte_at))]
pub fn byte(line: &[u8], i: usize) -> u64
    requires { 2 * i + 1 < length line.now }
    ensures { result ≡ byte_at line.now i }
{
    16 * u64::from(value(line[2 * i])) + u64::from(value(line[2 * i + 1]))
}

// Byte i of a line, carried round at 256: of characters that are no digits it may be more. Its digits are valued by range, so that several bytes can be read at once.
#[tactic(auto, unfolding(crate::specs::Digits::byte_at))]
pub fn carried_byte(line: &[u8], i: usize) -> u8
    requires { 2 * i + 1 < length line.now }
    ensures { result ≡ byte_at line.now i % 256 }
{
    let first = value_by_range(line[2 * i]).wrapping_mul(16);
    first.wrapping_add(value_by_range(line[2 * i + 1]))
}
