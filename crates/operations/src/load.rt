// Document 01, '01 load', and document 02, change 10: 'a load .. sets 0 to n−1'.
ghost use Rattle.std.specs.Prelude.{◌≡◌, ◌≢◌, true, ◌+◌, ◌<◌, ◌≤◌, IfSome, IfNone, length, map};
ghost use Rattle.units.specs.Units.{number_of_points, Sound};
ghost use Rattle.tables.specs.Block.{block_length, max_trains, max_pairs};
ghost use Rattle.tables.specs.WellFormed.{fresh_block};
ghost use Rattle.tables.specs.Counts.{rows_of, columns_of, pair_entries, entries_before};
ghost use Rattle.tables.specs.Numbers.{numbers_shape, forbidden_cost, is_cost};
ghost use Rattle.operations.specs.Given.{numbers_given, numbers_lent};
ghost use Rattle.operations.specs.Load.{SizesIn, PairsIn, CostsIn, head_loaded, sizes_loaded, pairs_loaded, cost_loaded, run_loaded, choices_loaded, pair_loaded, entries_loaded, order_loaded, loaded_block};

use crate::given_study::GivenStudy;
use crate::lent_study::LentStudy;
use tables::block::{Block, Pair, Places};
use tables::{block, places};
use units::{Points, Scale};

// Stores n, s and m, and 0 at every other place.
fn load_head(b: &mut Places, n: usize, scale: Scale, m: usize)
    requires { (n ≤ max_trains) × (m ≤ max_pairs) }
    ensures { b.new ≡ head_loaded n scale m fresh_block }
{
    *b = [0; Block::LENGTH];
    block::put_trains(b, n);
    block::put_scale(b, scale);
    block::put_pairs(b, m);
}

// Stores the sizes.
fn load_sizes(b: &mut Places, sizes: &[u64])
    requires { SizesIn sizes.now }
    ensures { b.new ≡ sizes_loaded sizes.now b.old }
{
    for i in 0..sizes.len() {
        block::put_size(b, i, sizes[i] as usize);
    }
}

// Stores each pair's two trains.
fn load_pairs(b: &mut Places, pairs: &[Pair])
    requires { PairsIn max_trains (map (λ p. p.first) pairs.now) (map (λ p. p.second) pairs.now) }
    ensures { b.new ≡ pairs_loaded (map (λ p. p.first) pairs.now) (map (λ p. p.second) pairs.now) b.old }
{
    for k in 0..pairs.len() {
        block::put_first(b, k, pairs[k].first);
        block::put_second(b, k, pairs[k].second);
    }
}

// The points that a cost of a load stands for: none where it is the mark of a forbidden entry.
fn points_of(cost: u64) -> Option<Points>
    ensures some { IfSome result (λ p. (number_of_points p ≡ cost) × (cost ≢ forbidden_cost)) }
    ensures none { IfNone result (cost ≡ forbidden_cost) }
{
    if cost == Block::FORBIDDEN {
        return None;
    }
    Some(Points::from(cost))
}

// Stores a cost: H at place p, and T at place q. That of a forbidden entry is −1 at both.
// Counts and places are bounded for one call each: the loops below count them on.
fn load_cost(b: &mut Places, scale: Scale, cost: u64, p: usize, q: usize)
    requires { (Sound scale) × (is_cost cost ≡ true) × (p < block_length) × (q < block_length) }
    ensures { b.new ≡ cost_loaded scale cost p q b.old }
{
    match points_of(cost) {
        Some(points) => {
            places::put(b, p, points.into());
            places::put(b, q, scale.parts(points).into());
        }
        None => {
            places::close(b, p);
            places::close(b, q);
        }
    }
}

// Stores a run of costs: H from place `loaded` on, and T from place `held` on.
fn load_run(b: &mut Places, scale: Scale, costs: &[u64], loaded: usize, held: usize)
    requires { (Sound scale) × (CostsIn costs.now) × (loaded + length costs.now ≤ block_length) × (held + length costs.now ≤ block_length) }
    ensures { b.new ≡ run_loaded scale costs.now 0 loaded held (length costs.now) b.old }
{
    for a in 0..costs.len() {
        load_cost(b, scale, costs[a], loaded + a, held + a);
    }
}

// Stores each train's costs.
fn load_choices(b: &mut Places, given: &LentStudy<'_>)
    ensures { b.new ≡ choices_loaded given.now.scale (numbers_shape (numbers_lent given.now)) given.now.choices.now b.old }
{
    let mut start = 0;
    for i in 0..given.sizes.len() {
        let end = start + given.sizes[i] as usize;
        let loaded = block::choice_place(Block::LOADED_CHOICES_FROM, i, 0);
        let held = block::choice_place(Block::HELD_CHOICES_FROM, i, 0);
        load_run(b, given.scale, &given.choices[start..end], loaded, held);
        start = end;
    }
}

// Stores the costs of pair k, which begin at `from`, row by row: where they end.
fn load_pair(b: &mut Places, given: &LentStudy<'_>, k: usize, from: usize) -> usize
    requires { (k < length given.now.pairs.now) × (from ≡ entries_before (numbers_shape (numbers_lent given.now)) k) }
    ensures value { result ≡ from + pair_entries (numbers_shape (numbers_lent given.now)) k }
    ensures block_after { b.new ≡ pair_loaded given.now.scale given.now.entries.now from (rows_of (numbers_shape (numbers_lent given.now)) k) (columns_of (numbers_shape (numbers_lent given.now)) k) k b.old }
{
    let pair = given.pairs[k];
    let rows = given.sizes[pair.first] as usize;
    let columns = given.sizes[pair.second] as usize;
    let mut start = from;
    for a in 0..rows {
        let end = start + columns;
        let loaded = block::entry_place(Block::LOADED_ENTRIES_FROM, k, a, 0);
        let held = block::entry_place(Block::HELD_ENTRIES_FROM, k, a, 0);
        load_run(b, given.scale, &given.entries[start..end], loaded, held);
        start = end;
    }
    start
}

// Stores each pair's costs.
fn load_entries(b: &mut Places, given: &LentStudy<'_>)
    ensures { b.new ≡ entries_loaded given.now.scale (numbers_shape (numbers_lent given.now)) given.now.entries.now b.old }
{
    let mut start = 0;
    for k in 0..given.pairs.len() {
        start = load_pair(b, given, k, start);
    }
}

// Stores the order in which the trains are tried after a load.
fn load_order(b: &mut Places, n: usize)
    requires { n ≤ max_trains }
    ensures { b.new ≡ order_loaded n b.old }
{
    for d in 0..n {
        block::put_order(b, d, d);
    }
}

// Loads a problem from lists that are lent, whatever stood in the block.
pub fn load_lent(block: &mut Places, given: &LentStudy<'_>)
    ensures { block.new ≡ loaded_block (numbers_lent given.now) }
{
    load_head(block, given.sizes.len(), given.scale, given.pairs.len());
    load_sizes(block, given.sizes);
    load_pairs(block, given.pairs);
    load_choices(block, given);
    load_entries(block, given);
    load_order(block, given.sizes.len());
}

// Loads a problem, whatever stood in the block.
pub fn load(block: &mut Places, given: GivenStudy<'_>)
    ensures { block.new ≡ loaded_block (numbers_given given.entry.numbers.now) }
{
    let numbers = given.numbers;
    let lent = LentStudy::known(
        numbers.scale,
        &numbers.sizes,
        &numbers.choices,
        &numbers.pairs,
        &numbers.entries,
    );
    load_lent(block, &lent);
}
