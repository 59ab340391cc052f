// Document 01, 'Lines': how many numbers a held study asks for that go through all its trains or all its pairs.
// That k is a pair is asked of each call: the loops count it, and a struct of study and pair would be made in each turn.
#![tactic(auto)]

ghost use Rattle.std.specs.Prelude.{◌≡◌, ◌<◌, ◌≤◌};
ghost use Rattle.tables.specs.Block.{trains, pairs};
ghost use Rattle.tables.specs.Plans.{shape_of};
ghost use Rattle.tables.specs.Counts.{rows_of, columns_of, pair_entries, pair_moves, choices_before, choice_count, entry_count, move_count, weight_count};

use tables::block;
use tables::held_study::HeldStudy;

// How many rows pair k has: the choices of its first train.
#[tactic(auto, using(tables::proofs::Study::shape_ranges))]
pub fn rows_of(study: HeldStudy<'_>, k: usize) -> usize
    requires { k < pairs study.numbers.now }
    ensures { result ≡ rows_of (shape_of study.entry.numbers.now) k }
{
    block::size(study.numbers, block::first(study.numbers, k))
}

// How many columns pair k has: the choices of its second train.
#[tactic(auto, using(tables::proofs::Study::shape_ranges))]
pub fn columns_of(study: HeldStudy<'_>, k: usize) -> usize
    requires { k < pairs study.numbers.now }
    ensures { result ≡ columns_of (shape_of study.entry.numbers.now) k }
{
    block::size(study.numbers, block::second(study.numbers, k))
}

// How many entries pair k has.
#[tactic(auto, using(tables::proofs::Counting::counting))]
pub fn pair_entries(study: HeldStudy<'_>, k: usize) -> usize
    requires { k < pairs study.numbers.now }
    ensures { result ≡ pair_entries (shape_of study.entry.numbers.now) k }
{
    rows_of(study, k) * columns_of(study, k)
}

// How many moves pair k has.
#[tactic(auto, using(tables::proofs::Counting::counting))]
fn pair_moves(study: HeldStudy<'_>, k: usize) -> usize
    requires { k < pairs study.numbers.now }
    ensures { result ≡ pair_moves (shape_of study.entry.numbers.now) k }
{
    rows_of(study, k) + columns_of(study, k)
}

// How many choices the first i trains have.
pub fn choices_before(study: HeldStudy<'_>, i: usize) -> usize
    requires { i ≤ trains study.numbers.now }
    ensures { result ≡ choices_before (shape_of study.entry.numbers.now) i }
{
    (0..i).map(|j| block::size(study.numbers, j)).sum()
}

// How many choices the trains have.
pub fn choice_count(study: HeldStudy<'_>) -> usize
    ensures { result ≡ choice_count (shape_of study.entry.numbers.now) }
{
    choices_before(study, block::trains(study.numbers))
}

// How many entries the pairs have.
pub fn entry_count(study: HeldStudy<'_>) -> usize
    ensures { result ≡ entry_count (shape_of study.entry.numbers.now) }
{
    (0..block::pairs(study.numbers))
        .map(|k| pair_entries(study, k))
        .sum()
}

// How many moves a shift has for the pairs.
pub fn move_count(study: HeldStudy<'_>) -> usize
    ensures { result ≡ move_count (shape_of study.entry.numbers.now) }
{
    (0..block::pairs(study.numbers))
        .map(|k| pair_moves(study, k))
        .sum()
}

// How many weights a certificate has.
#[tactic(auto, using(tables::proofs::Counting::counting))]
pub fn weight_count(study: HeldStudy<'_>) -> usize
    ensures { result ≡ weight_count (shape_of study.entry.numbers.now) }
{
    choice_count(study) + entry_count(study)
}
