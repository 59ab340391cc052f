// The least of a run over its open places goes to where its costs go: one run, each lane of a pair, the choices of a train.
ghost use Rattle.std.specs.Prelude.{◌≡◌, ◌<◌, ◌^◌};
ghost use Rattle.units.specs.Units.{number_of_parts};
ghost use Rattle.tables.specs.Block.{trains, pairs, size};
ghost use Rattle.rewriting.specs.Moves.{RunIn, Room, ShapeInRange, lane_train};
ghost use Rattle.rewriting.specs.Leasts.{HeldPlace, HeldRun, mate_place, NonNegative, run_least, run_tightened, lane_tightened, lanes_tightened, train_tightened};

use crate::sides::{PlaceRun, Side};
use crate::{moves, sides};
use tables::block::{Block, Places};
use tables::places;
use units::Parts;

// Where H has the cost of a place of T.
#[tactic(auto, unfolding(crate::specs::Leasts::mate_place))]
fn mate_place(p: usize) -> usize
    requires { HeldPlace p }
    ensures { result ≡ mate_place p }
{
    if p < Block::HELD_ENTRIES_FROM {
        return p - (Block::HELD_CHOICES_FROM - Block::LOADED_CHOICES_FROM);
    }
    p - (Block::HELD_ENTRIES_FROM - Block::LOADED_ENTRIES_FROM)
}

// The least open figure of a run, in parts; 0 where none is open.
#[tactic(auto, unfolding(crate::specs::Leasts::run_least, crate::specs::Leasts::open_place, crate::specs::Leasts::found_of), using(crate::proofs::Opens::mate_within))]
fn run_least(b: &[i64], run: PlaceRun) -> Parts
    requires { (RunIn b.now run) × (HeldRun run) }
    ensures { number_of_parts result ≡ run_least run b.now }
{
    let mut least = None;
    for i in 0..run.count {
        let p = run.from + run.step * i;
        if places::is_open(b, mate_place(p)) {
            let x = Parts::from(places::get(b, p));
            least = Some(least.map_or(x, |so_far: Parts| so_far.min(x)));
        }
    }
    least.unwrap_or(Parts::ZERO)
}

// Moves the least of a run to where its costs go.
#[tactic(auto, unfolding(crate::specs::Leasts::run_tightened), using(crate::proofs::Falls::run_least_room))]
fn tighten_run(b: &mut [i64], run: PlaceRun)
    requires { (RunIn b.old run) × (HeldRun run) × (Room b.old (2 ^ 57)) }
    ensures { b.new ≡ run_tightened run b.old }
{
    let least = run_least(b, run);
    moves::move_run(b, run, u64::from(least) as i64);
}

// Moves the least of lane x of pair k to choice x of the side's train.
#[tactic(auto, using(crate::proofs::Shape::project_run, crate::proofs::Shape::project_held, crate::proofs::Shape::lane))]
fn tighten_lane(b: &mut Places, k: usize, side: Side, x: usize)
    requires { (ShapeInRange b.old) × (Room b.old (2 ^ 57)) × (k < pairs b.old) × (x < size b.old (lane_train side b.old k)) }
    ensures { b.new ≡ lane_tightened side k x b.old }
{
    let run = sides::lane(b, k, side, x);
    tighten_run(b, run);
}

// Moves the least of each lane of pair k to the lane's own choice.
#[tactic(auto, unfolding(theory::specs::Fold::iter), using(crate::proofs::Falls::lane_asked))]
pub fn tighten_lanes(b: &mut Places, k: usize, side: Side)
    requires { (ShapeInRange b.old) × (NonNegative b.old) × (Room b.old (2 ^ 52)) × (k < pairs b.old) }
    ensures { b.new ≡ lanes_tightened side k b.old }
{
    for x in 0..sides::lanes(b, k, side) {
        tighten_lane(b, k, side, x);
    }
}

// Moves the least of the choices of train i to the constant.
#[tactic(auto, using(crate::proofs::Shape::project_run, crate::proofs::Shape::project_held, crate::proofs::Shape::unary))]
pub fn tighten_train(b: &mut Places, i: usize)
    requires { (ShapeInRange b.old) × (Room b.old (2 ^ 57)) × (i < trains b.old) }
    ensures { b.new ≡ train_tightened i b.old }
{
    let run = sides::choices(b, i);
    tighten_run(b, run);
}
