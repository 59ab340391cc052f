// Document 01, 'Lines': numbers of one to six bytes, big-endian.
// A width and a number are bounded for one call: a struct of both would be made of each field that is read, and taken apart at once.
ghost use Rattle.std.specs.Prelude.{◌≡◌, ◌+◌, ◌*◌, ◌<◌, ◌≤◌, ◌^◌, nat_abs, length};
ghost use Rattle.frames.specs.Fields.{max_width, field, signed};

use crate::digits;

// The number of `width` bytes from byte `at` on.
#[inline(always)]
#[tactic(auto, using(crate::proofs::Bytes::byte_most, crate::proofs::Widths::field_fits), unfolding(crate::specs::Fields::field))]
pub fn field(line: &[u8], at: usize, width: usize) -> u64
    requires { (2 * (at + width) ≤ length line.now) × (width ≤ max_width) }
    ensures { result ≡ field line.now at width }
{
    let mut v = 0;
    for w in 0..width {
        v = 256 * v + digits::byte(line, at + w);
    }
    v
}

// How many numbers there are of `width` bytes.
// The library's power, named for what it counts: its caller would cast the width.
#[tactic(auto, using(crate::proofs::Widths::power_fits))]
pub fn numbers(width: usize) -> u64
    requires { width ≤ max_width }
    ensures { result ≡ 256 ^ width }
{
    256u64.pow(width as u32)
}

// A number of `width` bytes as two's complement.
#[tactic(auto, using(crate::proofs::Widths::power_fits), unfolding(crate::specs::Fields::signed))]
pub fn signed(width: usize, v: u64) -> i64
    requires { (width ≤ max_width) × (v < 256 ^ width) }
    ensures { result ≡ signed width v }
{
    let n = numbers(width);
    if 2 * v < n {
        v as i64
    } else {
        v as i64 - n as i64
    }
}

// How far a number of `width` bytes is from 0, as two's complement.
// The library's `unsigned_abs` of a signed field: two crates ask for it, of a lift or a move and of a literal, and need the distance alone.
pub fn distance(width: usize, v: u64) -> u64
    requires { (width ≤ max_width) × (v < 256 ^ width) }
    ensures { result ≡ nat_abs (signed width v) }
{
    signed(width, v).unsigned_abs()
}
