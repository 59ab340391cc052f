// Document 01, '03 shift': lifts and moves together, in parts. Only the end is judged.
// What is asked of the block, of k and of x stands in clauses: each move changes the block (`rewriting::moves` says more), and the loops count k and x.
#![tactic(auto)]

ghost use Rattle.std.specs.Prelude.{◌≡◌, ◌+◌, ◌<◌, ◌≤◌, ◌^◌, length};
ghost use Rattle.tables.specs.Block.{max_parts, trains, pairs, size};
ghost use Rattle.tables.specs.WellFormed.{Study};
ghost use Rattle.tables.specs.Plans.{shape_of};
ghost use Rattle.tables.specs.Counts.{pair_moves, move_count};
ghost use Rattle.rewriting.specs.Moves.{Room, ShapeInRange, lane_train};
ghost use Rattle.shift.specs.Shift.{SmallMoves, lifted, lanes_shifted, pair_shifted, pairs_shifted, shifted, shift_outcome, shift_block};

use crate::amounts::Amounts;
use refusals::Verdict;
use rewriting::sides::Side;
use rewriting::{judging, moves, sides};
use tables::block;
use tables::block::Places;

pub mod amounts;

// Shifts the held costs by the lifts, one for each train, and the moves: of each pair those of its first train, then those of its second.
pub fn shift(block: &mut Places, lifts: Amounts<'_>, moves: Amounts<'_>) -> Verdict
    requires { (Study block.old) × (length lifts.numbers.now ≡ trains block.old) × (length moves.numbers.now ≡ move_count (shape_of block.old)) }
    ensures value { result ≡ shift_outcome lifts.entry.numbers.now moves.entry.numbers.now block.old }
    ensures block_after { block.new ≡ shift_block lifts.entry.numbers.now moves.entry.numbers.now block.old }
{
    // A closure that captures a whole struct with a reference in it tells its caller nothing: this one captures the numbers.
    judging::attempt(
        block,
        |end: &mut Places|
            requires study { (Study end.old) × (length lifts.numbers.now ≡ trains end.old) × (length moves.numbers.now ≡ move_count (shape_of end.old)) }
            requires small { (SmallMoves lifts.numbers.now) × (SmallMoves moves.numbers.now) }
            ensures { end.new ≡ shifted lifts.entry.numbers.now moves.entry.numbers.now end.old }
        {
            lift_trains(end, Amounts::known(lifts.numbers));
            shift_pairs(end, Amounts::known(moves.numbers));
        },
    )
}

// Lifts u_i from the choices of each train to the constant.
#[tactic(auto, unfolding(theory::specs::Fold::iter))]
fn lift_trains(b: &mut Places, lifts: Amounts<'_>)
    requires { (ShapeInRange b.old) × (Room b.old max_parts) × (length lifts.numbers.now ≡ trains b.old) }
    ensures { b.new ≡ lifted lifts.entry.numbers.now b.old }
{
    for (i, lift) in lifts.numbers.iter().enumerate() {
        moves::project_unary(b, i, *lift);
    }
}

// Makes the moves of every pair.
#[tactic(auto, unfolding(theory::specs::Fold::iter, theory::specs::Sum::sum))]
fn shift_pairs(b: &mut Places, moves: Amounts<'_>)
    requires { (ShapeInRange b.old) × (Room b.old (2 ^ 48)) × (length moves.numbers.now ≡ move_count (shape_of b.old)) }
    ensures { b.new ≡ pairs_shifted moves.entry.numbers.now b.old }
{
    let mut start = 0;
    for k in 0..block::pairs(b) {
        start = shift_pair(b, moves, start, k);
    }
}

// Makes the moves of pair k, which begin at `start`. The result is where those of the next pair begin.
#[tactic(auto, unfolding(crate::specs::Shift::pair_shifted))]
fn shift_pair(b: &mut Places, moves: Amounts<'_>, start: usize, k: usize) -> usize
    requires shape_in_range { (ShapeInRange b.old) × (Room b.old (2 ^ 52)) × (k < pairs b.old) }
    requires k_in_bounds { start + pair_moves (shape_of b.old) k ≤ length moves.numbers.now }
    ensures { (result ≡ start + pair_moves (shape_of b.old) k) × (b.new ≡ pair_shifted moves.entry.numbers.now start k b.old) }
{
    let rows = sides::lanes(b, k, Side::Rows);
    let columns = sides::lanes(b, k, Side::Columns);
    shift_lanes(b, moves, start, k, Side::Rows);
    shift_lanes(b, moves, start + rows, k, Side::Columns);
    start + (rows + columns)
}

// Moves p_i,a from each row a of pair k to choice a of its first train, or p_j,b from each column b to choice b of its second.
#[tactic(auto, unfolding(theory::specs::Fold::iter))]
fn shift_lanes(b: &mut Places, moves: Amounts<'_>, start: usize, k: usize, side: Side)
    requires shape_in_range { (ShapeInRange b.old) × (Room b.old (2 ^ 53)) × (k < pairs b.old) }
    requires k_in_bounds { start + size b.old (lane_train side b.old k) ≤ length moves.numbers.now }
    ensures { b.new ≡ lanes_shifted side moves.entry.numbers.now start k b.old }
{
    for x in 0..sides::lanes(b, k, side) {
        moves::project(b, k, side, x, moves.numbers[start + x]);
    }
}
