// Places of a lent block. The block is signed: −1 is a forbidden entry, and above these functions all other numbers are natural. They take the block and a place, not a part of it: the definitions speak of places of the block.
// That p is a place is asked of each call's own p: the callers' loops count it, and a type of places would be made in each turn.
ghost use Rattle.std.specs.Prelude.{◌≡◌, ◌+◌, ◌<◌, ◌≤◌, ◌^◌, pos, negsuc, length, set};
ghost use Rattle.tables.specs.Block.{at, figure};
ghost use Rattle.tables.specs.WellFormed.{from_to, is_open, mate};
ghost use Rattle.tables.specs.Rows.{run_within, run_mated};

// The number at place p, 0 where it is negative.
#[tactic(auto, using(crate::proofs::Signed::max_nat), unfolding(crate::specs::Block::figure))]
pub fn get(b: &[i64], p: usize) -> u64
    requires { p < length b.now }
    ensures { result ≡ figure b.now p }
{
    b[p].max(0) as u64
}

// The number at place p, which is not negative. There is no test, so that a run of places is copied several at a time.
pub fn natural(b: &[i64], p: usize) -> u64
    requires { (p < length b.now) × (at b.now p ≡ pos (figure b.now p)) }
    ensures { result ≡ figure b.now p }
{
    b[p] as u64
}

// Stores v at place p.
pub fn put(b: &mut [i64], p: usize, v: u64)
    requires { (p < length b.old) × (v < 2 ^ 63) }
    ensures { b.new ≡ set b.old p (pos v) }
{
    b[p] = v as i64;
}

// Stores −1 at place p: what stands there is forbidden.
pub fn close(b: &mut [i64], p: usize)
    requires { p < length b.old }
    ensures { b.new ≡ set b.old p (negsuc 0) }
{
    b[p] = -1;
}

// Whether a number is not below 0.
#[tactic(auto, using(crate::proofs::Signed::not_below_open))]
fn open(z: i64) -> bool
    ensures { result ≡ is_open z }
{
    z >= 0
}

// Whether two numbers are both below 0, or neither is.
// Two tests compared: no method of the library says it of two numbers (`signum` tells 0 from a number above it).
#[tactic(auto, unfolding(crate::specs::WellFormed::mate))]
fn are_mates(x: i64, y: i64) -> bool
    ensures { result ≡ mate x y }
{
    open(x) == open(y)
}

// Whether the number at place p is not below 0.
pub fn is_open(b: &[i64], p: usize) -> bool
    requires { p < length b.now }
    ensures { result ≡ is_open (at b.now p) }
{
    open(b[p])
}

// Whether `count` places from `from` on are 0. Their bits are joined, and no place ends the loop, so that several places can be read at once.
pub fn all_zero(b: &[i64], from: usize, count: usize) -> bool
    requires { from + count ≤ length b.now }
    ensures { result ≡ run_within b.now from count (from_to 0 0) }
{
    let mut joined = 0;
    for z in &b[from..from + count] {
        joined |= *z;
    }
    joined == 0
}

// Whether `count` places from `from` on and from `to` on are mates. No place ends the loop, so that several places can be read at once.
pub fn run_mated(b: &[i64], from: usize, to: usize, count: usize) -> bool
    requires { (from + count ≤ length b.now) × (to + count ≤ length b.now) }
    ensures { result ≡ run_mated b.now from to count }
{
    let mut mated = true;
    for (x, y) in b[from..from + count].iter().zip(&b[to..to + count]) {
        mated &= are_mates(*x, *y);
    }
    mated
}
