// Document 01, '04 tighten'.
// What is asked of the block and of k stands in clauses: each least that moves changes the block (`rewriting::moves` says more), and the loops count k.
#![tactic(auto)]

ghost use Rattle.std.specs.Prelude.{◌≡◌, ◌<◌, ◌^◌};
ghost use Rattle.tables.specs.Block.{max_parts, pairs};
ghost use Rattle.tables.specs.WellFormed.{Study};
ghost use Rattle.rewriting.specs.Moves.{Room, ShapeInRange};
ghost use Rattle.rewriting.specs.Leasts.{NonNegative};
ghost use Rattle.tighten.specs.Tighten.{pair_tightened, pairs_tightened, trains_tightened, tightened, tighten_outcome, tighten_block};

use refusals::Verdict;
use rewriting::sides::Side;
use rewriting::{judging, leasts};
use tables::block;
use tables::block::Places;

// Tightens the held costs: leasts of rows and columns go to the choices, then leasts of the choices to the constant.
pub fn tighten(block: &mut Places) -> Verdict
    requires { Study block.old }
    ensures value { result ≡ tighten_outcome block.old }
    ensures block_after { block.new ≡ tighten_block block.old }
{
    judging::attempt(
        block,
        |end: &mut Places|
            requires { Study end.old }
            ensures { end.new ≡ tightened end.old }
        {
            tighten_pairs(end);
            tighten_trains(end);
        },
    )
}

// Tightens each row of pair k, then each column.
#[tactic(auto, unfolding(crate::specs::Tighten::pair_tightened))]
fn tighten_pair(b: &mut Places, k: usize)
    requires { (ShapeInRange b.old) × (NonNegative b.old) × (Room b.old (2 ^ 47)) × (k < pairs b.old) }
    ensures { b.new ≡ pair_tightened k b.old }
{
    leasts::tighten_lanes(b, k, Side::Rows);
    leasts::tighten_lanes(b, k, Side::Columns);
}

// Tightens every pair.
#[tactic(auto, unfolding(theory::specs::Fold::iter))]
fn tighten_pairs(b: &mut Places)
    requires { (ShapeInRange b.old) × (NonNegative b.old) × (Room b.old max_parts) }
    ensures { b.new ≡ pairs_tightened b.old }
{
    for k in 0..block::pairs(b) {
        tighten_pair(b, k);
    }
}

// Moves the least of each train's choices to the constant.
#[tactic(auto, unfolding(theory::specs::Fold::iter))]
fn tighten_trains(b: &mut Places)
    requires { (ShapeInRange b.old) × (NonNegative b.old) × (Room b.old (2 ^ 50)) }
    ensures { b.new ≡ trains_tightened b.old }
{
    for i in 0..block::trains(b) {
        leasts::tighten_train(b, i);
    }
}
