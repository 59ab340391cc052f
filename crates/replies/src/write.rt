// Document 01, 'Replies': 'digits as lines are, two characters a byte', written into a lent buffer.
// Writers take the whole buffer and a place in it, since the caller lends it across the C interface and the next writer goes on in it.
ghost use Rattle.std.specs.Prelude.{◌≡◌, [], ◌++◌, ◌+◌, ◌*◌, ◌≤◌, map, length, take, drop};
ghost use Rattle.frames.specs.Digits.{byte_digits};
ghost use Rattle.frames.specs.Fields.{field_digits};
ghost use Rattle.replies.specs.Replies.{fields_digits, bytes_in};
ghost use Rattle.replies.specs.Wrote.{Wrote};

use frames::digits;

// Writes a byte as two digits, from character `at` on.
#[tactic(auto, using(crate::proofs::Writing::two_set))]
fn put_byte(reply: &mut [u8], at: usize, byte: u8)
    requires { at + 2 ≤ length reply.old }
    ensures { reply.new ≡ take at reply.old ++ byte_digits byte (drop (at + 2) reply.old) }
{
    reply[at] = digits::digit_of(byte / 16);
    reply[at + 1] = digits::digit_of(byte % 16);
}

// Writes v as a field of `width` bytes, from character `at` on, and answers where the next begins.
pub fn put_field(reply: &mut [u8], at: usize, width: usize, v: u64) -> usize
    requires { at + 2 * width ≤ length reply.old }
    ensures { (result ≡ at + 2 * width) × (reply.new ≡ take at reply.old ++ field_digits width v (drop (at + 2 * width) reply.old)) }
{
    let mut rest = v;
    for w in (0..width).rev() {
        put_byte(reply, at + 2 * w, (rest % 256) as u8);
        rest /= 256;
    }
    at + 2 * width
}

// Writes fields, each a width and a number, to the front of the buffer, one after the other.
pub fn put_fields(reply: &mut [u8], fields: &[(usize, u64)]) -> usize
    requires { 2 * bytes_in (map (λ f. f.0) fields.now) ≤ length reply.old }
    ensures { Wrote reply.old (fields_digits (map (λ f. f.0) fields.now) (map (λ f. f.1) fields.now) []) reply.new result }
{
    let mut at = 0;
    for (width, v) in fields {
        at = put_field(reply, at, *width, *v);
    }
    at
}
