// Document 02, change 4: the directional round.
// What is asked of the block, of k and of x stands in clauses: each cost that moves changes the block (`rewriting::moves` says more), and the loops count k and x.
#![tactic(auto)]

ghost use Rattle.std.specs.Prelude.{◌≡◌, ◌<◌, ◌^◌};
ghost use Rattle.units.specs.Units.{number_of_parts};
ghost use Rattle.tables.specs.Block.{max_trains, max_choices, trains, pairs, size, second};
ghost use Rattle.tables.specs.WellFormed.{Study};
ghost use Rattle.rewriting.specs.Moves.{Room, ShapeInRange};
ghost use Rattle.rewriting.specs.Leasts.{NonNegative};
ghost use Rattle.directional.specs.Directional.{cost_taken, column_taken, columns_taken, pair_round, pair_turn, train_round, directed, direct_outcome, direct_block};
ghost use Rattle.directional.specs.Heights.{Ready};

use refusals::Verdict;
use rewriting::sides::Side;
use rewriting::{judging, leasts, moves, sides};
use tables::block;
use tables::block::Places;
use units::Parts;

// Makes a round of the trains, the last first: the costs of each go by its pairs to trains of lower number, and its least to the constant.
pub fn direct(block: &mut Places) -> Verdict
    requires { Study block.old }
    ensures value { result ≡ direct_outcome block.old }
    ensures block_after { block.new ≡ direct_block block.old }
{
    judging::attempt(block, round_trains)
}

// Gives each train its turn, from the last to the first.
#[tactic(auto, unfolding(theory::specs::Fold::down, crate::specs::Directional::directed), using(crate::proofs::Ends::progress_start))]
fn round_trains(b: &mut Places)
    requires { Study b.old }
    ensures { b.new ≡ directed b.old }
{
    for j in (0..block::trains(b)).rev() {
        round_train(b, j);
    }
}

// The turn of train j: the pairs whose second train it is, in order, then its lift.
#[tactic(auto, unfolding(theory::specs::Fold::iter, crate::specs::Directional::train_round))]
fn round_train(b: &mut Places, j: usize)
    requires { (Ready b.old j) × (j < trains b.old) }
    ensures { b.new ≡ train_round j b.old }
{
    for k in 0..block::pairs(b) {
        turn_pair(b, j, k);
    }
    leasts::tighten_train(b, j);
}

// The turn of pair k, where train j is its second.
#[tactic(auto, unfolding(crate::specs::Directional::pair_turn))]
fn turn_pair(b: &mut Places, j: usize, k: usize)
    requires { (ShapeInRange b.old) × (NonNegative b.old) × (Room b.old (2 ^ 47)) × (k < pairs b.old) }
    ensures { b.new ≡ pair_turn j k b.old }
{
    if block::second(b, k) == j {
        round_pair(b, k);
    }
}

// Takes the costs of the second train of pair k into its entries, then moves the least of each row to the first train.
#[tactic(auto, unfolding(crate::specs::Directional::pair_round))]
fn round_pair(b: &mut Places, k: usize)
    requires { (ShapeInRange b.old) × (NonNegative b.old) × (Room b.old (2 ^ 47)) × (k < pairs b.old) }
    ensures { b.new ≡ pair_round k b.old }
{
    take_columns(b, k);
    leasts::tighten_lanes(b, k, Side::Rows);
}

// Takes each cost of the second train of pair k into its column.
#[tactic(auto, unfolding(theory::specs::Fold::iter))]
fn take_columns(b: &mut Places, k: usize)
    requires { (ShapeInRange b.old) × (NonNegative b.old) × (Room b.old (2 ^ 50)) × (k < pairs b.old) }
    ensures { b.new ≡ columns_taken k b.old }
{
    for x in 0..sides::lanes(b, k, Side::Columns) {
        take_column(b, k, x);
    }
}

// Takes cost x of the second train of pair k into column x.
#[tactic(auto, using(crate::proofs::Places::cost_room))]
fn take_column(b: &mut Places, k: usize, x: usize)
    requires { (ShapeInRange b.old) × (Room b.old (2 ^ 57)) × (k < pairs b.old) × (x < size b.old (second b.old k)) }
    ensures { b.new ≡ column_taken k x b.old }
{
    let cost = cost_taken(b, block::second(b, k), x);
    moves::project(b, k, Side::Columns, x, -(u64::from(cost) as i64));
}

// What a round takes of choice a of train i: all that it costs, or nothing where it is forbidden.
#[tactic(auto, unfolding(crate::specs::Directional::cost_taken))]
fn cost_taken(b: &Places, i: usize, a: usize) -> Parts
    requires { (i < max_trains) × (a < max_choices) }
    ensures { number_of_parts result ≡ cost_taken b.now i a }
{
    if block::choice_open(b, i, a) {
        block::held_choice(b, i, a)
    } else {
        Parts::ZERO
    }
}
