// Document 01, 'State block', and document 02, change 10: whether a lent block is well formed. The tables are gone through row by row.
ghost use Rattle.std.specs.Prelude.{◌≡◌, ◌↔◌, true, ◌+◌, ◌*◌, ◌<◌, ◌≤◌, IsSome, IfSome};
ghost use Rattle.tables.specs.Block.{block_length, max_trains, max_choices, max_pairs, entries_of_pair, trains, pairs};
ghost use Rattle.tables.specs.WellFormed.{cost_to, places_right, mated, follows, pair_right, pairs_right, order_right, is_fresh, holds_study, well_formed};
ghost use Rattle.tables.specs.Rows.{run_within, row_within, head_right, shape_right, choices_used, choices_within, entries_used, pair_within, entries_within, order_within};
ghost use Rattle.tables.specs.Known.{block_numbers};

use crate::block::{Block, Places};
use crate::held_study::HeldStudy;
use crate::place_limits::Limits;
use crate::{block, orders, places};
use std::array;
use units::Scale;

// Numbers whose n, s, m, c0, sizes and pairs' trains are within their limits. It stands for that fact in the signatures of the tests of tables.
#[derive(Clone, Copy)]
struct ShapedPlaces<'a> {
    numbers: &'a Places,
    ghost shaped: { shape_right numbers.now ≡ true },
}

impl<'a> Block<'a> {
    // The block that these numbers are, where they are well formed.
    // A constructor and no `TryFrom`: document 01's Forms ask for one, beside the limits.
    #[tactic(auto, using(crate::proofs::Study::new_block))]
    pub fn new(numbers: &'a [i64]) -> Option<Block<'a>>
        ensures variant { IsSome result ↔ (well_formed numbers.now ≡ true) }
        ensures numbers { IfSome result (λ b. block_numbers b ≡ numbers.now) }
    {
        let numbers = numbers.as_array()?;
        if is_fresh(numbers) {
            return Some(Block::Fresh);
        }
        if holds_study(numbers) {
            return Some(Block::Held(HeldStudy { numbers }));
        }
        None
    }

    // The block that these numbers are, which are known to be well formed.
    #[tactic(auto, using(crate::proofs::Study::known_fresh, crate::proofs::Study::known_study))]
    pub fn known(numbers: &'a Places) -> Block<'a>
        requires { well_formed numbers.now ≡ true }
        ensures { block_numbers result ≡ numbers.now }
    {
        if block::trains(numbers) == 0 {
            Block::Fresh
        } else {
            Block::Held(HeldStudy::known(numbers))
        }
    }
}

// Whether all numbers are 0. The first is looked at by itself: in a loaded study it is n, and the others need no look.
#[tactic(auto, using(crate::proofs::Rows::fresh))]
fn is_fresh(b: &Places) -> bool
    ensures { result ≡ is_fresh b.now }
{
    b[0] == 0 && places::all_zero(b, 0, b.len())
}

// Whether the places, the pairs and the order are those of a loaded study.
#[tactic(auto, using(crate::proofs::Rows::study), unfolding(crate::specs::WellFormed::holds_study))]
pub fn holds_study(b: &Places) -> bool
    ensures { result ≡ holds_study b.now }
{
    let costs = Block::COST.into();
    let parts = Block::PARTS.into();
    if !shape_right(b) {
        return false;
    }
    let shaped = ShapedPlaces { numbers: b };
    pairs_right(b)
        && choices_within(shaped, Block::LOADED_CHOICES_FROM, costs)
        && choices_within(shaped, Block::HELD_CHOICES_FROM, parts)
        && entries_within(shaped, Block::LOADED_ENTRIES_FROM, costs)
        && entries_within(shaped, Block::HELD_ENTRIES_FROM, parts)
        && order_within(b)
        && order_right(b)
        && mated(b)
}

// Whether H and T are below 0 at the same entries. Unused places are 0, so that only used trains and pairs are looked at.
#[tactic(auto, using(crate::proofs::Mates::head_counts, crate::proofs::Mates::mated_used))]
fn mated(b: &Places) -> bool
    requires { places_right b.now ≡ true }
    ensures { result ≡ mated b.now }
{
    let choices = Block::CHOICES * block::trains(b);
    let entries = Block::ENTRIES * block::pairs(b);
    places::run_mated(
        b,
        Block::LOADED_CHOICES_FROM,
        Block::HELD_CHOICES_FROM,
        choices,
    ) && places::run_mated(
        b,
        Block::LOADED_ENTRIES_FROM,
        Block::HELD_ENTRIES_FROM,
        entries,
    )
}

// Whether `count` places from `from` on are within the limits.
// Here and below the bounds of `from`, a count, i and k are of one call each: the loops count them, and a struct would be made in each turn.
fn run_within(b: &Places, from: usize, count: usize, limits: Limits) -> bool
    requires { from + count ≤ block_length }
    ensures { result ≡ run_within b.now from count limits }
{
    b[from..from + count].iter().all(|z| limits.allow(*z))
}

// Whether of `width` places from `from` on the first `used` are within the limits, and the others 0.
#[tactic(auto, using(crate::proofs::Rows::row_split))]
fn row_within(b: &Places, from: usize, width: usize, used: usize, limits: Limits) -> bool
    requires { (from + width ≤ block_length) × (used ≤ width) }
    ensures { result ≡ row_within b.now from width used limits }
{
    run_within(b, from, used, limits) && places::all_zero(b, from + used, width - used)
}

// Whether n, s, m and c0 are within their limits.
#[tactic(auto, using(crate::proofs::Rows::head))]
fn head_right(b: &Places) -> bool
    ensures { result ≡ head_right b.now }
{
    Limits::from_to(1, Block::TRAINS as u64).allow(b[Block::TRAINS_PLACE])
        && Limits::from_to(Scale::MIN, Scale::MAX).allow(b[Block::SCALE_PLACE])
        && Limits::from_to(0, Block::PAIRS as u64).allow(b[Block::PAIRS_PLACE])
        && Limits::from_to(0, Block::PARTS.into()).allow(b[Block::CONSTANT_PLACE])
}

// Whether the head, the sizes and the pairs' trains are within their limits.
#[tactic(auto, using(crate::proofs::Rows::shape_rows, crate::proofs::Rows::head_most))]
fn shape_right(b: &Places) -> bool
    ensures { result ≡ shape_right b.now }
{
    if !head_right(b) {
        return false;
    }
    let n = block::trains(b);
    let m = block::pairs(b);
    let sizes = Limits::from_to(1, Block::CHOICES as u64);
    let trains = Limits::from_to(0, Block::TRAINS as u64 - 1);
    row_within(b, Block::SIZES_FROM, Block::TRAINS, n, sizes)
        && row_within(b, Block::FIRSTS_FROM, Block::PAIRS, m, trains)
        && row_within(b, Block::SECONDS_FROM, Block::PAIRS, m, trains)
}

// Whether pair k comes after the one before it, where there is one.
#[tactic(auto, using(std::proofs::lemmas::Bool::Decides::nat_tests), unfolding(crate::specs::WellFormed::before, crate::specs::WellFormed::follows))]
fn follows(b: &Places, k: usize) -> bool
    requires { k < max_pairs }
    ensures { result ≡ follows b.now k }
{
    k == 0 || block::trains_of(b, k - 1) < block::trains_of(b, k)
}

// Whether pair k has i below j, j below n, and comes after the pair before it.
#[tactic(auto, using(std::proofs::lemmas::Bool::Decides::nat_tests), unfolding(crate::specs::WellFormed::pair_right))]
fn pair_right(b: &Places, k: usize) -> bool
    requires { k < max_pairs }
    ensures { result ≡ pair_right b.now k }
{
    let pair = block::trains_of(b, k);
    pair.first < pair.second && pair.second < block::trains(b) && follows(b, k)
}

// Whether the pairs ascend.
fn pairs_right(b: &Places) -> bool
    requires { pairs b.now ≤ max_pairs }
    ensures { result ≡ pairs_right b.now }
{
    (0..block::pairs(b)).all(|k| pair_right(b, k))
}

// How many choices of train i are used: none where there is no such train.
fn choices_used(b: &Places, i: usize) -> usize
    requires { i < max_trains }
    ensures { result ≡ choices_used b.now i }
{
    if i < block::trains(b) {
        block::size(b, i)
    } else {
        0
    }
}

// Whether the table of choices that begins at `from` has costs up to `high`, and 0 where it is unused. The limits are made at each row, so that the least is a constant where the places are compared.
#[tactic(auto, using(crate::proofs::Rows::row_calls))]
fn choices_within(b: ShapedPlaces<'_>, from: usize, high: u64) -> bool
    requires { from + max_trains * max_choices ≤ block_length }
    ensures { result ≡ choices_within b.entry.numbers.now from (cost_to high) }
{
    (0..Block::TRAINS).all(|i| {
        let row = from + Block::CHOICES * i;
        let used = choices_used(b.numbers, i);
        row_within(b.numbers, row, Block::CHOICES, used, Limits::cost_to(high))
    })
}

// How many entries of row a of pair k are used: none where there is no such row or pair.
#[tactic(auto, using(crate::proofs::Rows::pair_trains))]
fn entries_used(b: ShapedPlaces<'_>, k: usize, a: usize) -> usize
    requires { k < max_pairs }
    ensures { result ≡ entries_used b.entry.numbers.now k a }
{
    if k >= block::pairs(b.numbers) {
        return 0;
    }
    let pair = block::trains_of(b.numbers, k);
    if a < block::size(b.numbers, pair.first) {
        block::size(b.numbers, pair.second)
    } else {
        0
    }
}

// Whether the places of pair k in the table that begins at `from` hold costs up to `high`, and 0 where they are unused.
#[tactic(auto, using(crate::proofs::Rows::pair_absent, crate::proofs::Rows::row_calls))]
fn pair_within(b: ShapedPlaces<'_>, from: usize, k: usize, high: u64) -> bool
    requires { (from + max_pairs * entries_of_pair ≤ block_length) × (k < max_pairs) }
    ensures { result ≡ pair_within b.entry.numbers.now from k (cost_to high) }
{
    let numbers = b.numbers;
    if k >= block::pairs(numbers) {
        return places::all_zero(numbers, from + Block::ENTRIES * k, Block::ENTRIES);
    }
    (0..Block::CHOICES).all(|a| {
        let row = from + (Block::ENTRIES * k + Block::CHOICES * a);
        let used = entries_used(b, k, a);
        row_within(numbers, row, Block::CHOICES, used, Limits::cost_to(high))
    })
}

// Whether the table of pairs that begins at `from` has costs up to `high`, and 0 where it is unused.
fn entries_within(b: ShapedPlaces<'_>, from: usize, high: u64) -> bool
    requires { from + max_pairs * entries_of_pair ≤ block_length }
    ensures { result ≡ entries_within b.entry.numbers.now from (cost_to high) }
{
    (0..Block::PAIRS).all(|k| pair_within(b, from, k, high))
}

// Whether the first n places of the order hold a number that a train may have, and the others 0.
fn order_within(b: &Places) -> bool
    requires { trains b.now ≤ max_trains }
    ensures { result ≡ order_within b.now }
{
    let trains = Limits::from_to(0, Block::TRAINS as u64 - 1);
    row_within(
        b,
        Block::ORDER_FROM,
        Block::TRAINS,
        block::trains(b),
        trains,
    )
}

// Whether the order has each train exactly once.
#[tactic(auto, unfolding(crate::specs::WellFormed::order_right))]
fn order_right(b: &Places) -> bool
    requires { trains b.now ≤ max_trains }
    ensures { result ≡ order_right b.now }
{
    let order: [u64; Block::TRAINS] = array::from_fn(|d| places::get(b, Block::ORDER_FROM + d));
    orders::each_once(&order[..block::trains(b)])
}
