// Runs of fields of equal width, put behind a list of fixed capacity or into a lent slice: what a caller stores.
ghost use Rattle.std.specs.Prelude.{◌≡◌, true, ◌++◌, ◌+◌, ◌*◌, ◌≤◌, length};
ghost use Rattle.frames.specs.Fields.{max_width};
ghost use Rattle.frames.specs.Frames.{framed};
ghost use Rattle.frames.specs.Runs.{run_of, signed_run_of};

use crate::fields;
use arrayvec::ArrayVec;

// A run of `count` fields of `width` bytes, from byte `at` on.
#[tactic(auto, using(theory::proofs::Sum::part_inside, theory::proofs::Lists::list_next), unfolding(theory::specs::Lists::list_from))]
pub fn decode<const N: usize>(
    line: &[u8],
    at: usize,
    width: usize,
    count: usize,
    out: &mut ArrayVec<u64, N>,
)
    requires there { (2 * (at + width * count) ≤ length line.now) × (width ≤ max_width) }
    requires room { length out.old.items + count ≤ N }
    ensures { out.new.items ≡ out.old.items ++ run_of line.now at width count }
{
    for k in 0..count {
        out.push(fields::field(line, at + width * k, width));
    }
}

// The same of fields in two's complement.
// No generic function stands for both: its trait would also say what the line must be, so that a decode of plain numbers had a clause of the line to meet.
#[tactic(auto, using(theory::proofs::Sum::part_inside, theory::proofs::Lists::list_next, crate::proofs::Bytes::framed_whole, crate::proofs::Widths::field_below), unfolding(theory::specs::Lists::list_from))]
pub fn decode_signed<const N: usize>(
    line: &[u8],
    at: usize,
    width: usize,
    count: usize,
    out: &mut ArrayVec<i64, N>,
)
    requires there { (framed line.now ≡ true) × (2 * (at + width * count) ≤ length line.now) × (width ≤ max_width) }
    requires room { length out.old.items + count ≤ N }
    ensures { out.new.items ≡ out.old.items ++ signed_run_of line.now at width count }
{
    for k in 0..count {
        let field = fields::field(line, at + width * k, width);
        out.push(fields::signed(width, field));
    }
}

// A run of fields of `width` bytes from byte `at` on, into a lent slice: as many fields as the slice has places.
#[tactic(auto, using(theory::proofs::Sum::part_inside))]
pub fn fill(line: &[u8], at: usize, width: usize, out: &mut [u64])
    requires { (2 * (at + width * length out.old) ≤ length line.now) × (width ≤ max_width) }
    ensures { out.new ≡ run_of line.now at width (length out.old) }
{
    for k in 0..out.len() {
        out[k] = fields::field(line, at + width * k, width);
    }
}

// The same of fields in two's complement.
#[tactic(auto, using(theory::proofs::Sum::part_inside, crate::proofs::Bytes::framed_whole, crate::proofs::Widths::field_below))]
pub fn fill_signed(line: &[u8], at: usize, width: usize, out: &mut [i64])
    requires { (framed line.now ≡ true) × (2 * (at + width * length out.old) ≤ length line.now) × (width ≤ max_width) }
    ensures { out.new ≡ signed_run_of line.now at width (length out.old) }
{
    for k in 0..out.len() {
        out[k] = fields::signed(width, fields::field(line, at + width * k, width));
    }
}
