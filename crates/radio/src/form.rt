// Document 02, change 14: whether a line is a second form, its plain form, and the second form of a reply.
ghost use Rattle.std.specs.Prelude.{◌≡◌, ◌+◌, ◌-◌, ◌*◌, ◌%◌, ◌≤◌, is_ok, length, take};
ghost use Rattle.lines.specs.Kinds.{new_kind};
ghost use Rattle.replies.specs.Wrote.{Wrote};
ghost use Rattle.radio.specs.Forms.{radio_added, sum_width, is_radio, plain_line, with_sum, raised, radio_reply};

use frames::frame::Frame;
use frames::{byte_sum, fields};
use lines::kind::Kind;
use replies::replies::REFUSAL_BYTE;
use replies::write;

// What a kind has more in the second form: 40, hexadecimal.
const ADDED: u64 = 64;
// How many bytes the sum has.
const SUM_WIDTH: usize = 1;
// How many characters these are.
pub const SUM: usize = 2 * SUM_WIDTH;

// Whether a number is a kind's with its 40 added.
fn is_radio_kind(number: u64) -> bool
    ensures { result ≡ is_ok (new_kind (number - radio_added)) }
{
    Kind::try_from(number.saturating_sub(ADDED)).is_ok()
}

// Whether a line is a second form. Its kind is looked at first, so that a plain line is not gone through here.
#[tactic(auto, unfolding(crate::specs::Forms::is_radio))]
pub fn is_radio(line: &[u8]) -> bool
    ensures { result ≡ is_radio line.now }
{
    if line.len() < 2 * Kind::WIDTH {
        return false;
    }
    is_radio_kind(fields::field(line, 0, Kind::WIDTH)) && Frame::new(line).is_ok()
}

// Writes a second form without its two additions: `plain` has two characters less.
#[tactic(auto, unfolding(crate::specs::Forms::plain_line))]
pub fn write_plain(line: &[u8], plain: &mut [u8])
    requires { (2 ≤ length plain.old) × (length plain.old + 2 * sum_width ≡ length line.now) }
    ensures { plain.new ≡ plain_line line.now }
{
    let kind = fields::field(line, 0, Kind::WIDTH);
    plain.copy_from_slice(&line[..line.len() - SUM]);
    write::put_field(plain, 0, Kind::WIDTH, kind.saturating_sub(ADDED));
}

// Adds 40 to the first byte of a reply; that of a refusal stays.
#[tactic(auto, using(frames::proofs::Widths::field_fits))]
fn raise(reply: &mut [u8])
    requires { 2 ≤ length reply.old }
    ensures { reply.new ≡ raised reply.old }
{
    let kind = fields::field(reply, 0, Kind::WIDTH);
    if kind != REFUSAL_BYTE {
        write::put_field(reply, 0, Kind::WIDTH, kind + ADDED);
    }
}

// Writes the byte that takes the sum to 0 behind the first n characters of a buffer. Returns how many characters there are then.
fn put_sum(reply: &mut [u8], n: usize) -> usize
    requires { n + 2 * sum_width ≤ length reply.old }
    ensures { Wrote reply.old (with_sum (take n reply.old)) reply.new result }
{
    let sum = u64::from(byte_sum::byte_sum(&reply[..n]));
    write::put_field(reply, n, SUM_WIDTH, (256 - sum) % 256)
}

// Turns the reply of n characters in front of a buffer into its second form. Returns how many characters that has.
#[tactic(auto, unfolding(crate::specs::Forms::radio_reply))]
pub fn write_radio(reply: &mut [u8], n: usize) -> usize
    requires { (n % 2 ≡ 0) × (n + 2 * sum_width ≤ length reply.old) }
    ensures { Wrote reply.old (radio_reply (take n reply.old)) reply.new result }
{
    if n == 0 {
        return 0;
    }
    raise(reply);
    put_sum(reply, n)
}
