// What the choices of later trains come to so far, in rows of sums: a pair's row is the row before it of the same train, with the pair's costs.
ghost use Rattle.std.specs.Prelude.{ℕ, ◌+◌, ◌<◌, ◌^◌, get_or};
ghost use Rattle.units.specs.Units.{number_of_parts};
ghost use Rattle.tables.specs.Block.{max_choices};
ghost use Rattle.rows.specs.Listing.{shape_in, costs_in};
ghost use Rattle.rows.specs.Sums.{Carry, CarriedTo, Sums};
ghost use Rattle.rows.specs.Links.{row_count};
ghost use Rattle.rows.specs.Table.{sum_at, Owned};

use crate::listing::Listing;
use crate::table;
use crate::table::Table;
use std::array;
use tables::block;
use tables::block::Block;
use units::Parts;

// Where the pairs' rows begin; the trains' own stand before them.
pub const PAIR_ROWS_FROM: usize = Block::TRAINS;
// How many rows there are: one for each train and for each pair.
pub const ROWS: usize = PAIR_ROWS_FROM + Block::PAIRS;

// A number for each choice of a train.
pub type ByChoice = [u64; Block::CHOICES];

// The rows of sums.
pub type Rows = [ByChoice; ROWS];

// Lays the trains' own rows, in their order. They are laid in place, as the costs of a table are.
#[tactic(auto, using(tables::proofs::Study::trains_range, crate::proofs::Placing::train_below))]
pub fn lay_own(listing: &Listing<'_>, rows: &mut Rows)
    ensures { Owned (shape_in listing.now) (costs_in listing.now) rows.new }
{
    let b = listing.ordered.study.numbers;
    for d in 0..block::trains(b) {
        let from = block::choice_place(Block::HELD_CHOICES_FROM, listing.ordered.order[d], 0);
        rows[d] = table::walled_row(b, from);
    }
}

// Row r, with the partial total added to each sum.
// This and `row_with` are one `from_fn` each: one function for both would take a row that repeats the partial total, or a closure that is as long as either body.
pub fn row_from(rows: &Rows, r: usize, partial: Parts) -> ByChoice
    requires row_count_bound { r < row_count }
    requires by_index { (a : ℕ) → a < max_choices → number_of_parts partial + sum_at rows.now r a < 2 ^ 63 }
    ensures { Sums (λ a. number_of_parts partial + sum_at rows.now r a) result }
{
    let so_far = u64::from(partial);
    array::from_fn(|a| so_far + rows[r][a])
}

// A row with the costs of as many choices added.
fn row_with(row: &ByChoice, costs: &ByChoice) -> ByChoice
    requires { (a : ℕ) → a < max_choices → get_or row.now a 0 + get_or costs.now a 0 < 2 ^ 63 }
    ensures { Sums (λ a. get_or row.now a 0 + get_or costs.now a 0) result }
{
    array::from_fn(|a| row[a] + costs[a])
}

// Carries the choice of train t to the rows of the pairs that t begins.
#[tactic(auto, using(crate::proofs::Rows::carrying_room))]
pub fn carry(table: &Table<'_>, rows: &mut Rows, chosen: &[u8; Block::TRAINS], t: usize)
    requires { Carry table.now rows.old t chosen.now }
    ensures { CarriedTo table.now rows.old t chosen.now rows.new }
{
    // A local, since a row that is lent through `table.costs` has no proof.
    let costs = table.costs;
    let c = chosen[t] as usize;
    for k in table.begins[t]..table.begins[t + 1] {
        rows[PAIR_ROWS_FROM + k] = row_with(&rows[table.bases[k]], &costs[Block::CHOICES * k + c]);
    }
}
