// Document 01, 'State block', and document 02, change 10: where everything stands in the block, its readers and its writers.
// The bounds of i, k, a, a place and a stored number are each of one argument of one call: an index type would be made in each turn of a caller's loop, and read back for each place.
ghost use Rattle.std.specs.Prelude.{◌≡◌, ◌+◌, ◌*◌, ◌<◌, ◌≤◌, ◌^◌, pos, set};
ghost use Rattle.units.specs.Units.{number_of_points, number_of_parts, scale_min, scale_max};
ghost use Rattle.tables.specs.Block.{block_length, max_trains, max_choices, max_pairs, trains_place, scale_place, pairs_place, size_place, first_place, second_place, choice_place, entry_place, at, loaded_choice_place, held_choice_place, loaded_entry_place, order_place, trains, scale, pairs, constant, size, first, second, loaded_choice, held_choice, loaded_entry, order};
ghost use Rattle.tables.specs.WellFormed.{is_open};

use crate::held_study::HeldStudy;
use crate::places;
use units::{Parts, Points, Scale};

// A well-formed block: fresh, or with a loaded study. This type carries the limits and the layout too.
#[derive(Clone, Copy)]
pub enum Block<'a> {
    Fresh,
    Held(HeldStudy<'a>),
}

// The numbers of a block.
pub type Places = [i64; Block::LENGTH];

// A pair's two trains. Pairs ascend by the first, then by the second.
#[derive(Clone, Copy, Default, PartialEq, Eq, PartialOrd, Ord)]
pub struct Pair {
    pub first: usize,
    pub second: usize,
}

impl Block<'_> {
    // How many numbers a block has.
    pub const LENGTH: usize = 6676;
    // The most trains.
    pub const TRAINS: usize = 24;
    // The most choices of a train.
    pub const CHOICES: usize = 8;
    // The most pairs.
    pub const PAIRS: usize = 48;
    // The highest loaded cost.
    pub const COST: Points = Points::HIGHEST;
    // What a load gives as the cost of a forbidden entry: the line's own number, so that it is no Option.
    pub const FORBIDDEN: u64 = 16777215;
    // The highest held cost and the highest constant: L.
    pub const PARTS: Parts = Parts::HIGHEST;
    // Where n stands.
    pub const TRAINS_PLACE: usize = 0;
    // Where s stands.
    pub const SCALE_PLACE: usize = 1;
    // Where m stands.
    pub const PAIRS_PLACE: usize = 2;
    // Where c0 stands.
    pub const CONSTANT_PLACE: usize = 3;
    // Where the sizes begin.
    pub const SIZES_FROM: usize = 4;
    // Where the pairs' first trains begin.
    pub const FIRSTS_FROM: usize = 28;
    // Where the pairs' second trains begin.
    pub const SECONDS_FROM: usize = 76;
    // Where H of the choices begins.
    pub const LOADED_CHOICES_FROM: usize = 124;
    // Where T of the choices begins.
    pub const HELD_CHOICES_FROM: usize = 316;
    // Where H of the pairs begins.
    pub const LOADED_ENTRIES_FROM: usize = 508;
    // Where T of the pairs begins.
    pub const HELD_ENTRIES_FROM: usize = 3580;
    // Where the order of the trains begins.
    pub const ORDER_FROM: usize = 6652;
    // How many places a pair has in a table.
    pub const ENTRIES: usize = 64;
}

// Where choice a of train i stands, in the table of choices that begins at `from`.
pub fn choice_place(from: usize, i: usize, a: usize) -> usize
    requires { (from < block_length) × (i < max_trains) × (a < max_choices) }
    ensures { result ≡ choice_place from i a }
{
    from + (Block::CHOICES * i + a)
}

// Where the choices a and c of pair k stand, in the table of pairs that begins at `from`.
pub fn entry_place(from: usize, k: usize, a: usize, c: usize) -> usize
    requires { (from < block_length) × (k < max_pairs) × (a < max_choices) × (c < max_choices) }
    ensures { result ≡ entry_place from k a c }
{
    from + (Block::ENTRIES * k + Block::CHOICES * a + c)
}

// ---- readers: each is the name of a place, and `places` has the one function for all

// n.
pub fn trains(b: &Places) -> usize
    ensures { result ≡ trains b.now }
{
    places::get(b, Block::TRAINS_PLACE) as usize
}

// s.
pub fn scale(b: &Places) -> Scale
    requires { (scale_min ≤ scale b.now) × (scale b.now ≤ scale_max) }
    ensures { result ≡ scale b.now }
{
    Scale::known(places::get(b, Block::SCALE_PLACE))
}

// m.
pub fn pairs(b: &Places) -> usize
    ensures { result ≡ pairs b.now }
{
    places::get(b, Block::PAIRS_PLACE) as usize
}

// c0.
pub fn constant(b: &Places) -> Parts
    ensures { number_of_parts result ≡ constant b.now }
{
    Parts::from(places::get(b, Block::CONSTANT_PLACE))
}

// The number of choices of train i.
pub fn size(b: &Places, i: usize) -> usize
    requires { i < max_trains }
    ensures { result ≡ size b.now i }
{
    places::get(b, Block::SIZES_FROM + i) as usize
}

// The first train of pair k.
pub fn first(b: &Places, k: usize) -> usize
    requires { k < max_pairs }
    ensures { result ≡ first b.now k }
{
    places::get(b, Block::FIRSTS_FROM + k) as usize
}

// The second train of pair k.
pub fn second(b: &Places, k: usize) -> usize
    requires { k < max_pairs }
    ensures { result ≡ second b.now k }
{
    places::get(b, Block::SECONDS_FROM + k) as usize
}

// The trains of pair k.
pub fn trains_of(b: &Places, k: usize) -> Pair
    requires { k < max_pairs }
    ensures first { result.first ≡ first b.now k }
    ensures second { result.second ≡ second b.now k }
{
    Pair {
        first: first(b, k),
        second: second(b, k),
    }
}

// Whether choice a of train i is open.
pub fn choice_open(b: &Places, i: usize, a: usize) -> bool
    requires { (i < max_trains) × (a < max_choices) }
    ensures { result ≡ is_open (at b.now (loaded_choice_place i a)) }
{
    places::is_open(b, choice_place(Block::LOADED_CHOICES_FROM, i, a))
}

// H of choice a of train i.
pub fn loaded_choice(b: &Places, i: usize, a: usize) -> Points
    requires { (i < max_trains) × (a < max_choices) }
    ensures { number_of_points result ≡ loaded_choice b.now i a }
{
    Points::from(places::get(b, choice_place(Block::LOADED_CHOICES_FROM, i, a)))
}

// T of choice a of train i.
pub fn held_choice(b: &Places, i: usize, a: usize) -> Parts
    requires { (i < max_trains) × (a < max_choices) }
    ensures { number_of_parts result ≡ held_choice b.now i a }
{
    Parts::from(places::get(b, choice_place(Block::HELD_CHOICES_FROM, i, a)))
}

// Whether the entry of choices a and c of pair k is open.
pub fn entry_open(b: &Places, k: usize, a: usize, c: usize) -> bool
    requires { (k < max_pairs) × (a < max_choices) × (c < max_choices) }
    ensures { result ≡ is_open (at b.now (loaded_entry_place k a c)) }
{
    places::is_open(b, entry_place(Block::LOADED_ENTRIES_FROM, k, a, c))
}

// H of the choices a and c of pair k.
pub fn loaded_entry(b: &Places, k: usize, a: usize, c: usize) -> Points
    requires { (k < max_pairs) × (a < max_choices) × (c < max_choices) }
    ensures { number_of_points result ≡ loaded_entry b.now k a c }
{
    Points::from(places::get(b, entry_place(Block::LOADED_ENTRIES_FROM, k, a, c)))
}

// The train that is tried d-th, counted from 0.
pub fn order(b: &Places, d: usize) -> usize
    requires { d < max_trains }
    ensures { result ≡ order b.now d }
{
    places::get(b, Block::ORDER_FROM + d) as usize
}

// ---- writers: each is the name of a place likewise, over `places::put`

// Stores n.
pub fn put_trains(b: &mut Places, n: usize)
    requires { n < 2 ^ 63 }
    ensures { b.new ≡ set b.old trains_place (pos n) }
{
    places::put(b, Block::TRAINS_PLACE, n as u64);
}

// Stores s.
pub fn put_scale(b: &mut Places, s: Scale)
    ensures { b.new ≡ set b.old scale_place (pos s) }
{
    places::put(b, Block::SCALE_PLACE, s.number());
}

// Stores m.
pub fn put_pairs(b: &mut Places, m: usize)
    requires { m < 2 ^ 63 }
    ensures { b.new ≡ set b.old pairs_place (pos m) }
{
    places::put(b, Block::PAIRS_PLACE, m as u64);
}

// Stores the size of train i.
pub fn put_size(b: &mut Places, i: usize, d: usize)
    requires { (i < max_trains) × (d < 2 ^ 63) }
    ensures { b.new ≡ set b.old (size_place i) (pos d) }
{
    places::put(b, Block::SIZES_FROM + i, d as u64);
}

// Stores the first train of pair k.
pub fn put_first(b: &mut Places, k: usize, i: usize)
    requires { (k < max_pairs) × (i < 2 ^ 63) }
    ensures { b.new ≡ set b.old (first_place k) (pos i) }
{
    places::put(b, Block::FIRSTS_FROM + k, i as u64);
}

// Stores the second train of pair k.
pub fn put_second(b: &mut Places, k: usize, j: usize)
    requires { (k < max_pairs) × (j < 2 ^ 63) }
    ensures { b.new ≡ set b.old (second_place k) (pos j) }
{
    places::put(b, Block::SECONDS_FROM + k, j as u64);
}

// Stores H of choice a of train i.
pub fn put_loaded_choice(b: &mut Places, i: usize, a: usize, v: Points)
    requires { (i < max_trains) × (a < max_choices) × (number_of_points v < 2 ^ 63) }
    ensures { b.new ≡ set b.old (loaded_choice_place i a) (pos (number_of_points v)) }
{
    places::put(b, choice_place(Block::LOADED_CHOICES_FROM, i, a), v.into());
}

// Stores T of choice a of train i.
pub fn put_held_choice(b: &mut Places, i: usize, a: usize, v: Parts)
    requires { (i < max_trains) × (a < max_choices) × (number_of_parts v < 2 ^ 63) }
    ensures { b.new ≡ set b.old (held_choice_place i a) (pos (number_of_parts v)) }
{
    places::put(b, choice_place(Block::HELD_CHOICES_FROM, i, a), v.into());
}

// Stores the train that is tried d-th, counted from 0.
pub fn put_order(b: &mut Places, d: usize, i: usize)
    requires { (d < max_trains) × (i < 2 ^ 63) }
    ensures { b.new ≡ set b.old (order_place d) (pos i) }
{
    places::put(b, Block::ORDER_FROM + d, i as u64);
}
