// The table of a search: what the walk reads of a study, its trains by the places at which they are tried, and its pairs as they are listed.
ghost use Rattle.std.specs.Prelude.{◌≡◌, ◌+◌, ◌*◌, ◌≤◌, ◌<◌, ℕ, get_or};
ghost use Rattle.tables.specs.Block.{block_length, max_choices, trains, scale, pairs};
ghost use Rattle.bounds.specs.Bounds.{bound_of};
ghost use Rattle.rows.specs.Walled.{walled};
ghost use Rattle.rows.specs.Listing.{numbers_of, shape_in, costs_in};
ghost use Rattle.rows.specs.Table.{CostsLaid, Laid};
ghost use Rattle.rows.specs.Sums.{Sums};

use crate::links;
use crate::links::Links;
use crate::listing::Listing;
use crate::sums::ByChoice;
use std::array;
use tables::block::{Block, Places};
use tables::{block, places};
use units::{Points, Scale};

// What a forbidden place counts: above every total, and so far below 2^64 that a wall for a choice and one for each pair fit.
// A number and no Option: one comparison in the walk then drops a try with a forbidden entry, whether a plan is known or not, and one that is no better than the best.
pub const WALL: u64 = 1 << 50;

// The costs of the pairs: of each pair a row for each choice of its earlier train.
pub type Costs = [ByChoice; Block::CHOICES * Block::PAIRS];

// What the walk reads of a study, each figure in a field of its own.
#[derive(Drop)]
pub struct Table<'a> {
    // The costs of the pairs. They are lent, since so long an array is copied where a struct that holds it is returned.
    pub costs: &'a Costs,
    // How many choices the train at each place has.
    pub sizes: [usize; Block::TRAINS],
    // The row of sums in which each train's choices are summed when it is opened.
    pub ends: [usize; Block::TRAINS],
    // The row of sums to which each pair's costs are added.
    pub bases: [usize; Block::PAIRS],
    // The first pair of each place, and behind them the end of the last one's.
    pub begins: [usize; Block::TRAINS + 1],
    // n.
    pub trains: usize,
    // s.
    pub scale: Scale,
    // The published bound.
    pub bound: Points,
}

impl<'a> Table<'a> {
    // The table of a listing whose costs are laid.
    #[tactic(auto, using(tables::proofs::Study::scale_range))]
    pub fn new(listing: &Listing<'_>, costs: &'a Costs) -> Table<'a>
        requires { CostsLaid (shape_in listing.now) (costs_in listing.now) (pairs (numbers_of listing.now)) costs.now }
        ensures { Laid (shape_in listing.now) (costs_in listing.now) (scale (numbers_of listing.now)) (bound_of (numbers_of listing.now)) result }
    {
        let study = listing.ordered.study;
        let b = study.numbers;
        let Links { ends, bases } = links::rows(listing);
        Table {
            costs,
            sizes: sizes(listing),
            ends,
            bases,
            begins: links::begins(listing),
            trains: block::trains(b),
            scale: block::scale(b),
            bound: bounds::published(study),
        }
    }
}

// Lays the costs of the pairs, as they stand in the list. They are laid in place, since so long an array is copied where it is returned.
pub fn lay_costs(listing: &Listing<'_>, costs: &mut Costs)
    ensures { CostsLaid (shape_in listing.now) (costs_in listing.now) (pairs (numbers_of listing.now)) costs.new }
{
    for k in 0..block::pairs(listing.ordered.study.numbers) {
        lay_pair(listing, k, costs);
    }
}

// The number at place p, and the wall where it is forbidden.
// A place or a pair is bounded for one call: the loops count it, and an index type would be made in each turn.
fn walled(b: &Places, p: usize) -> u64
    requires { p < block_length }
    ensures { result ≡ walled b.now p }
{
    if places::is_open(b, p) {
        places::natural(b, p)
    } else {
        WALL
    }
}

// Eight numbers of the block, from place `from` on, with the wall for each that is forbidden.
pub(crate) fn walled_row(b: &Places, from: usize) -> ByChoice
    requires { from + max_choices ≤ block_length }
    ensures { Sums (λ a. walled b.now (from + a)) result }
{
    array::from_fn(|a| walled(b, from + a))
}

// A column of a pair so: eight numbers of the block, each eighth from place `from` on.
fn walled_column(b: &Places, from: usize) -> ByChoice
    requires { from + 7 * max_choices < block_length }
    ensures { Sums (λ a. walled b.now (from + max_choices * a)) result }
{
    array::from_fn(|a| walled(b, from + Block::CHOICES * a))
}

// The costs of pair k of the list at choice c of its earlier train: a row of the pair, and a column where it is turned over.
#[tactic(auto, using(tables::proofs::Study::pairs_range, crate::proofs::Placing::list_below))]
fn cost_row(listing: &Listing<'_>, k: usize, c: usize) -> ByChoice
    requires { (k < pairs (numbers_of listing.now)) × (c < max_choices) }
    ensures { Sums ((costs_in listing.now).pair k c) result }
{
    let b = listing.ordered.study.numbers;
    let pair = listing.list[k];
    if listing.ordered.is_turned(pair) {
        walled_column(b, block::entry_place(Block::HELD_ENTRIES_FROM, pair, 0, c))
    } else {
        walled_row(b, block::entry_place(Block::HELD_ENTRIES_FROM, pair, c, 0))
    }
}

// Lays the costs of pair k of the list: the rows that are used, one for each choice of its earlier train.
#[tactic(auto, using(tables::proofs::Study::pairs_range, crate::proofs::Limits::listing_few))]
fn lay_pair(listing: &Listing<'_>, k: usize, costs: &mut Costs)
    requires { (k < pairs (numbers_of listing.now)) × CostsLaid (shape_in listing.now) (costs_in listing.now) k costs.old }
    ensures { CostsLaid (shape_in listing.now) (costs_in listing.now) (k + 1) costs.new }
{
    for c in 0..listing.ordered.size(listing.earlier(k)) {
        costs[Block::CHOICES * k + c] = cost_row(listing, k, c);
    }
}

// How many choices the train at each place has.
#[tactic(auto, using(tables::proofs::Study::trains_range))]
fn sizes(listing: &Listing<'_>) -> [usize; Block::TRAINS]
    ensures { (d : ℕ) → d < trains (numbers_of listing.now) → get_or result d 0 ≡ (shape_in listing.now).size d }
{
    let mut sizes = [0; Block::TRAINS];
    for d in 0..block::trains(listing.ordered.study.numbers) {
        sizes[d] = listing.ordered.size(d);
    }
    sizes
}
