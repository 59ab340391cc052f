// Document 01, '01 load': the fields of a load, judged from left to right.
// The bounds of `at`, `last`, i and a count are of one call each: the loops go on from field to field, and a struct would be made at each.
ghost use Rattle.std.specs.Prelude.{◌≡◌, Ok, ◌+◌, ◌*◌, ◌-◌, ◌<◌, ◌≤◌, ◌^◌, length};
ghost use Rattle.refusals.specs.Verdicts.{Fine};
ghost use Rattle.tables.specs.Block.{max_trains, max_choices, max_pairs, entries_of_pair};
ghost use Rattle.frames.specs.Digits.{bytes};
ghost use Rattle.lines.specs.Asked.{request_if};
ghost use Rattle.lines.specs.Layout.{number_in, end_of, further, cost_field, size_field, choice_field, pair_count_field, first_field, second_field, entry_field, load_trains, load_scale, load_size, choice_count, entry_count, pair_at};
ghost use Rattle.kinds.specs.Load.{pair_ordered, pair_verdict, head_verdict, rest_verdict, costs_verdict, load_verdict, load_request};

use crate::sized_load::SizedLoad;
use frames::frame::Frame;
use lines::field::{Field, Rule};
use lines::kind::Kind;
use lines::request::{FieldRun, Load, Request};
use lines::verdict;
use refusals::{Refusal, Verdict};
use tables::block::{Block, Pair};
use units::Scale;

// n.
pub const TRAINS: Field = Field {
    at: Kind::WIDTH,
    width: Field::COUNT_WIDTH,
    rule: Rule::Between(1, Block::TRAINS as u64),
    refusal: Refusal::Range,
};
// s.
pub const SCALE: Field = Field {
    at: TRAINS.at + TRAINS.width,
    width: Load::SCALE_WIDTH,
    rule: Rule::Between(Scale::MIN, Scale::MAX),
    refusal: Refusal::Range,
};
// The first size.
pub const SIZE: Field = Field {
    at: SCALE.at + SCALE.width,
    width: Field::COUNT_WIDTH,
    rule: Rule::Between(1, Block::CHOICES as u64),
    refusal: Refusal::Range,
};

// A cost of a load, at byte `at`.
pub fn cost_field(at: usize) -> Field
    ensures { result ≡ cost_field at }
{
    Field {
        at,
        width: Load::COST_WIDTH,
        rule: Rule::Priced,
        refusal: Refusal::Cost,
    }
}

// n and s.
#[tactic(auto, unfolding(crate::specs::Load::head_verdict))]
pub fn head_verdict(frame: Frame<'_>) -> Verdict
    ensures { result ≡ head_verdict frame.entry.line.now }
{
    verdict::field_verdict(frame, TRAINS)?;
    verdict::field_verdict(frame, SCALE)
}

// The scale of a line whose n and s were judged fine, by the scale's own constructor.
#[tactic(auto, using(crate::proofs::LoadFields::head_fine))]
pub fn scale(frame: Frame<'_>) -> Result<Scale, Refusal>
    requires { head_verdict frame.line.now ≡ Fine }
    ensures { result ≡ Ok (load_scale frame.entry.line.now) }
{
    Scale::new(SCALE.number_in(frame.line)).ok_or(Refusal::Range)
}

// The size of train i.
fn size(frame: Frame<'_>, i: usize) -> usize
    requires { (i < 2 ^ 32) × (2 * end_of (further size_field i) ≤ length frame.line.now) }
    ensures { result ≡ load_size frame.entry.line.now i }
{
    SIZE.further(i).number_in(frame.line) as usize
}

// How many choice costs there are.
fn choice_count(load: SizedLoad<'_>) -> usize
    ensures value { result ≡ choice_count load.entry.frame.line.now }
    ensures most { result ≤ max_trains * max_choices }
{
    let mut count = 0;
    for i in 0..TRAINS.number_in(load.frame.line) as usize {
        count += size(load.frame, i);
    }
    count
}

// The first of them.
fn choice_field(load: SizedLoad<'_>) -> Field
    ensures { result ≡ choice_field load.entry.frame.line.now }
{
    let n = TRAINS.number_in(load.frame.line) as usize;
    cost_field(SIZE.further(n).at)
}

// m, behind `count` choice costs.
#[tactic(auto, using(crate::proofs::LoadFields::choice_count_most))]
fn pair_count_field(load: SizedLoad<'_>, count: usize) -> Field
    requires { count ≡ choice_count load.frame.line.now }
    ensures { result ≡ pair_count_field load.entry.frame.line.now }
{
    Field {
        at: choice_field(load).further(count).at,
        width: Field::COUNT_WIDTH,
        rule: Rule::Between(0, Block::PAIRS as u64),
        refusal: Refusal::Range,
    }
}

// A train of a pair, at byte `at`: any number, since a pair is judged after both.
fn train(frame: Frame<'_>, at: usize) -> usize
    requires { 2 * end_of (first_field at) ≤ length frame.line.now }
    ensures { result ≡ number_in frame.entry.line.now (first_field at) }
{
    let train = Field {
        at,
        width: Field::COUNT_WIDTH,
        rule: Rule::Any,
        refusal: Refusal::Fields,
    };
    train.number_in(frame.line) as usize
}

// The two trains of the pair that begins at byte `at`.
pub fn trains_of(frame: Frame<'_>, at: usize) -> Pair
    requires { 2 * end_of (second_field at) ≤ length frame.line.now }
    ensures first { result.first ≡ number_in frame.entry.line.now (first_field at) }
    ensures second { result.second ≡ number_in frame.entry.line.now (second_field at) }
{
    Pair {
        first: train(frame, at),
        second: train(frame, at + Field::COUNT_WIDTH),
    }
}

// How many costs it has.
pub fn entry_count(load: SizedLoad<'_>, at: usize) -> usize
    requires there { (entry_field at).at ≤ bytes load.frame.line.now }
    requires below { (number_in load.frame.line.now (first_field at) < load_trains load.frame.line.now) × (number_in load.frame.line.now (second_field at) < load_trains load.frame.line.now) }
    ensures value { result ≡ entry_count load.entry.frame.line.now at }
    ensures most { result ≤ entries_of_pair }
{
    let pair = trains_of(load.frame, at);
    size(load.frame, pair.first) * size(load.frame, pair.second)
}

// Whether pair k, at byte `at`, has i below j, j below n, and comes after the pair at byte `last`.
#[tactic(auto, unfolding(crate::specs::Load::pair_ordered, tables::specs::WellFormed::before))]
fn pair_ordered(frame: Frame<'_>, k: usize, last: usize, at: usize) -> bool
    requires there { (last ≤ at) × ((entry_field at).at ≤ bytes frame.line.now) }
    requires places { (at ≡ pair_at frame.line.now k) × (last ≡ pair_at frame.line.now (k - 1)) }
    ensures { result ≡ pair_ordered frame.entry.line.now k }
{
    let pair = trains_of(frame, at);
    pair.first < pair.second
        && pair.second < TRAINS.number_in(frame.line) as usize
        && (k == 0 || trains_of(frame, last) < pair)
}

// Pair k, at byte `at`, after the pair at byte `last`: i and j, then its costs.
#[tactic(auto, unfolding(crate::specs::Load::pair_verdict))]
fn pair_verdict(load: SizedLoad<'_>, k: usize, last: usize, at: usize) -> Verdict
    requires there { (last ≤ at) × (at ≤ bytes load.frame.line.now) }
    requires places { (at ≡ pair_at load.frame.line.now k) × (last ≡ pair_at load.frame.line.now (k - 1)) }
    ensures { result ≡ pair_verdict load.entry.frame.line.now k }
{
    let costs = at + Load::PAIR_WIDTH;
    if load.frame.bytes() < costs {
        return Err(Refusal::Fields);
    }
    if !pair_ordered(load.frame, k, last, at) {
        return Err(Refusal::Pair);
    }
    verdict::run_verdict(load.frame, cost_field(costs), entry_count(load, at))
}

// Where the pair ends that begins at byte `at` and has so many costs.
pub fn pair_end(at: usize, count: usize) -> usize
    requires { (at < 2 ^ 32) × (count < 2 ^ 32) }
    ensures { result ≡ (further (entry_field at) count).at }
{
    at + Load::PAIR_WIDTH + Load::COST_WIDTH * count
}

// m pairs from byte `start` on, and no bytes left over.
fn rest_verdict(load: SizedLoad<'_>, start: usize, m: usize) -> Verdict
    requires { (m ≤ max_pairs) × (start ≤ bytes load.frame.line.now) × (start ≡ pair_at load.frame.line.now 0) }
    ensures { result ≡ rest_verdict load.entry.frame.line.now m }
{
    let mut last = start;
    let mut at = start;
    for k in 0..m {
        pair_verdict(load, k, last, at)?;
        last = at;
        at = pair_end(at, entry_count(load, at));
    }
    verdict::end_verdict(load.frame.bytes(), at)
}

// The choices' costs, m, and the pairs.
fn costs_verdict(load: SizedLoad<'_>) -> Verdict
    ensures { result ≡ costs_verdict load.entry.frame.line.now }
{
    let count = choice_count(load);
    verdict::run_verdict(load.frame, choice_field(load), count)?;
    let pairs = pair_count_field(load, count);
    verdict::field_verdict(load.frame, pairs)?;
    rest_verdict(load, pairs.end(), pairs.number_in(load.frame.line) as usize)
}

// The fields of a load. Once n and the sizes were judged fine, the line is a sized load.
#[tactic(auto, using(crate::proofs::LoadFields::head_fine), unfolding(crate::specs::Load::load_verdict))]
fn load_verdict(frame: Frame<'_>) -> Verdict
    ensures { result ≡ load_verdict frame.entry.line.now }
{
    head_verdict(frame)?;
    verdict::run_verdict(frame, SIZE, TRAINS.number_in(frame.line) as usize)?;
    let load = SizedLoad { frame };
    costs_verdict(load)
}

// What a load of this scale asks, once its fields were judged fine.
fn request(frame: Frame<'_>, scale: Scale) -> Request
    requires { (load_verdict frame.line.now ≡ Fine) × (scale ≡ load_scale frame.line.now) }
    ensures { result ≡ load_request frame.entry.line.now }
{
    let load = SizedLoad { frame };
    let count = choice_count(load);
    let pairs = pair_count_field(load, count);
    Request::Load(Load {
        scale,
        sizes: FieldRun {
            at: SIZE.at,
            count: TRAINS.number_in(frame.line) as usize,
        },
        choices: FieldRun {
            at: choice_field(load).at,
            count,
        },
        pairs: FieldRun {
            at: pairs.end(),
            count: pairs.number_in(frame.line) as usize,
        },
    })
}

// A load.
pub fn read_load(frame: Frame<'_>) -> Result<Request, Refusal>
    ensures { result ≡ request_if (load_verdict frame.entry.line.now) (load_request frame.entry.line.now) }
{
    load_verdict(frame)?;
    Ok(request(frame, scale(frame)?))
}
