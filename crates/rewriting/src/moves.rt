// Source document 000, Algorithm 1: costs go from a run of places to one place. What is asked of the block on the way stands in clauses (`ShapeInRange`, `Room`, `NonNegative`): each move changes the block and each bound differs, so that a struct around it would be
// made anew at every call.
// `RunIn` is of a run and the block that it is used on, whose length these functions leave open; the bounds of a pair, a lane, a train and an amount are of one call each.
ghost use Rattle.std.specs.Prelude.{◌≡◌, ◌<◌, ◌≤◌, ◌^◌, length};
ghost use Rattle.std.specs.Int.Signed.{mag};
ghost use Rattle.tables.specs.Block.{trains, pairs, size};
ghost use Rattle.rewriting.specs.Moves.{Room, ShapeInRange, RunIn, add_at, add_run, move_run, lane_train, project, project_unary};

use crate::sides;
use crate::sides::{PlaceRun, Side};
use tables::block::Places;

// Adds z at place p.
fn add_at(b: &mut [i64], p: usize, z: i64)
    requires { (p < length b.old) × (Room b.old (2 ^ 61)) × (mag z ≤ 2 ^ 61) }
    ensures { b.new ≡ add_at p z b.old }
{
    b[p] += z;
}

// Adds z at each place of a run.
#[tactic(auto, unfolding(theory::specs::Fold::iter), using(crate::proofs::Runs::front_room))]
fn add_run(b: &mut [i64], run: PlaceRun, z: i64)
    requires { (RunIn b.old run) × (Room b.old (2 ^ 60)) × (mag z < 2 ^ 60) }
    ensures { b.new ≡ add_run run z b.old }
{
    for i in 0..run.count {
        add_at(b, run.from + run.step * i, z);
    }
}

// Moves alpha from each place of a run to where its costs go.
#[tactic(auto, unfolding(crate::specs::Moves::move_run))]
pub fn move_run(b: &mut [i64], run: PlaceRun, alpha: i64)
    requires { (RunIn b.old run) × (Room b.old (2 ^ 59)) × (mag alpha < 2 ^ 58) }
    ensures { b.new ≡ move_run run alpha b.old }
{
    add_at(b, run.to, alpha);
    add_run(b, run, -alpha);
}

// Project: moves alpha from lane x of pair k to choice x of the side's train.
#[tactic(auto, using(crate::proofs::Shape::project_run, crate::proofs::Shape::lane))]
pub fn project(b: &mut Places, k: usize, side: Side, x: usize, alpha: i64)
    requires { (ShapeInRange b.old) × (Room b.old (2 ^ 59)) × (k < pairs b.old) × (x < size b.old (lane_train side b.old k)) × (mag alpha < 2 ^ 58) }
    ensures { b.new ≡ project side k x alpha b.old }
{
    let run = sides::lane(b, k, side, x);
    move_run(b, run, alpha);
}

// UnaryProject: moves alpha from each choice of train i to the constant.
#[tactic(auto, using(crate::proofs::Shape::project_run, crate::proofs::Shape::unary))]
pub fn project_unary(b: &mut Places, i: usize, alpha: i64)
    requires { (ShapeInRange b.old) × (Room b.old (2 ^ 59)) × (i < trains b.old) × (mag alpha < 2 ^ 58) }
    ensures { b.new ≡ project_unary i alpha b.old }
{
    let run = sides::choices(b, i);
    move_run(b, run, alpha);
}
