// The runs of places that costs go from: the rows and columns of a pair's table, and the choices of a train.
// `ShapeInRange` is asked of a block that changes between two calls (`moves` says more); the bounds of a pair, a lane and a train are of one call each.
ghost use Rattle.std.specs.Prelude.{◌≡◌, ◌<◌};
ghost use Rattle.tables.specs.Block.{trains, pairs, size};
ghost use Rattle.rewriting.specs.Moves.{ShapeInRange, lane_train, lane_run, choices_run};

use tables::block;
use tables::block::{Block, Places};

// The lanes of a pair's table: its rows, each of which has a choice of the first train, and its columns, each of which has one of the second.
#[derive(Clone, Copy)]
pub enum Side {
    Rows,
    Columns,
}

// `count` places, `step` apart, from `from` on, and the place that their costs go to.
#[derive(Clone, Copy)]
pub struct PlaceRun {
    pub from: usize,
    pub step: usize,
    pub count: usize,
    pub to: usize,
}

// How many lanes pair k has on a side.
pub fn lanes(b: &Places, k: usize, side: Side) -> usize
    requires { (ShapeInRange b.now) × (k < pairs b.now) }
    ensures { result ≡ size b.now (lane_train side b.now k) }
{
    match side {
        Side::Rows => block::size(b, block::first(b, k)),
        Side::Columns => block::size(b, block::second(b, k)),
    }
}

// Lane x of pair k: its entries, whose costs go to choice x of the side's train.
pub fn lane(b: &Places, k: usize, side: Side, x: usize) -> PlaceRun
    requires { (ShapeInRange b.now) × (k < pairs b.now) × (x < size b.now (lane_train side b.now k)) }
    ensures { result ≡ lane_run side b.now k x }
{
    match side {
        Side::Rows => PlaceRun {
            from: block::entry_place(Block::HELD_ENTRIES_FROM, k, x, 0),
            step: 1,
            count: lanes(b, k, Side::Columns),
            to: block::choice_place(Block::HELD_CHOICES_FROM, block::first(b, k), x),
        },
        Side::Columns => PlaceRun {
            from: block::entry_place(Block::HELD_ENTRIES_FROM, k, 0, x),
            step: Block::CHOICES,
            count: lanes(b, k, Side::Rows),
            to: block::choice_place(Block::HELD_CHOICES_FROM, block::second(b, k), x),
        },
    }
}

// The choices of train i, whose costs go to the constant.
pub fn choices(b: &Places, i: usize) -> PlaceRun
    requires { (ShapeInRange b.now) × (i < trains b.now) }
    ensures { result ≡ choices_run b.now i }
{
    PlaceRun {
        from: block::choice_place(Block::HELD_CHOICES_FROM, i, 0),
        step: 1,
        count: block::size(b, i),
        to: Block::CONSTANT_PLACE,
    }
}
