// Document 01, '02 add'.
ghost use Rattle.std.specs.Prelude.{◌≡◌, ◌*◌, ◌<◌, ◌≤◌};
ghost use Rattle.units.specs.Units.{number_of_points, number_of_parts, scale_min, scale_max};
ghost use Rattle.tables.specs.Block.{max_cost, trains, scale, size};
ghost use Rattle.tables.specs.WellFormed.{Study};
ghost use Rattle.operations.specs.Add.{add_outcome, add_block};

use refusals::{Refusal, Verdict};
use tables::block;
use tables::block::{Block, Places};
use units::{Parts, Points};

// What T grows by.
// One call, yet a function: its contract says 's × points', and the edit that adds the points alone changes its one line.
fn growth(b: &Places, points: Points) -> Parts
    requires { (scale_min ≤ scale b.now) × (scale b.now ≤ scale_max) × (number_of_points points ≤ max_cost) }
    ensures { number_of_parts result ≡ scale b.now * number_of_points points }
{
    block::scale(b).parts(points)
}

// Adds points to choice a of train i: to its loaded cost, and in parts to its held cost.
// The block is written, and a `HeldStudy` lends one to be read, so that `Study` stands in the clause. Train and choice are bounded for this call.
pub fn add(block: &mut Places, i: usize, a: usize, points: Points) -> Verdict
    requires { (Study block.old) × (i < trains block.old) × (a < size block.old i) × (number_of_points points ≤ max_cost) }
    ensures value { result ≡ add_outcome i a (number_of_points points) block.old }
    ensures block_after { block.new ≡ add_block i a (number_of_points points) block.old }
{
    if !block::choice_open(block, i, a) {
        return Ok(());
    }
    let loaded = block::loaded_choice(block, i, a) + points;
    if loaded > Block::COST {
        return Err(Refusal::CostAbove);
    }
    let held = block::held_choice(block, i, a) + growth(block, points);
    if held > Block::PARTS {
        return Err(Refusal::PartsOutside);
    }
    block::put_loaded_choice(block, i, a, loaded);
    block::put_held_choice(block, i, a, held);
    Ok(())
}
