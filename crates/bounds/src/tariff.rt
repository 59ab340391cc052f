// Document 02, change 9: 'the greatest common divisor of all loaded costs as H now holds them, additions included, forbidden entries left out'.
// That i, k and a are there is asked of each call: the loops count them, and a struct of the study and a train, a pair or a row would be made in each turn.
ghost use Rattle.std.specs.Prelude.{◌≡◌, ◌<◌};
ghost use Rattle.tables.specs.Block.{trains, pairs, size, first};
ghost use Rattle.bounds.specs.Steps.{gcd, train_step, choices_step, row_step, pair_step, entries_step, step_of};

use tables::block;
use tables::held_study::HeldStudy;

// The greatest common divisor of two numbers: Euclid by recursion with falling remainder.
#[tactic(auto, using(crate::proofs::Euclid::gcd_zero, crate::proofs::Euclid::gcd_next))]
fn gcd(a: u64, b: u64) -> u64
    ensures { result ≡ gcd a b }
{
    if b == 0 { a } else { gcd(b, a % b) }
}

// Goes on from g over the choices of train i. Once it is 1 it stays 1.
#[tactic(auto, using(tables::proofs::Study::shape_ranges, crate::proofs::Steps::train_one), unfolding(theory::specs::Fold::iter))]
fn train_step(study: HeldStudy<'_>, i: usize, g: u64) -> u64
    requires { i < trains study.numbers.now }
    ensures { result ≡ train_step study.entry.numbers.now i g }
{
    if g == 1 {
        return 1;
    }
    let mut step = g;
    for a in 0..block::size(study.numbers, i) {
        step = gcd(block::loaded_choice(study.numbers, i, a).into(), step);
    }
    step
}

// Goes over all choices.
#[tactic(auto, unfolding(theory::specs::Fold::iter))]
fn choices_step(study: HeldStudy<'_>) -> u64
    ensures { result ≡ choices_step study.entry.numbers.now }
{
    let mut step = 0;
    for i in 0..block::trains(study.numbers) {
        step = train_step(study, i, step);
    }
    step
}

// Goes on from g over row a of pair k.
#[tactic(auto, using(tables::proofs::Study::shape_ranges), unfolding(theory::specs::Fold::iter))]
fn row_step(study: HeldStudy<'_>, k: usize, a: usize, g: u64) -> u64
    requires pair_there { k < pairs study.numbers.now }
    requires row_there { a < size study.numbers.now (first study.numbers.now k) }
    ensures { result ≡ row_step study.entry.numbers.now k a g }
{
    let mut step = g;
    for c in 0..block::size(study.numbers, block::second(study.numbers, k)) {
        step = gcd(block::loaded_entry(study.numbers, k, a, c).into(), step);
    }
    step
}

// Goes on from g over the rows of pair k. Once it is 1 it stays 1.
#[tactic(auto, using(tables::proofs::Study::shape_ranges, crate::proofs::Steps::pair_one), unfolding(theory::specs::Fold::iter))]
fn pair_step(study: HeldStudy<'_>, k: usize, g: u64) -> u64
    requires { k < pairs study.numbers.now }
    ensures { result ≡ pair_step study.entry.numbers.now k g }
{
    if g == 1 {
        return 1;
    }
    let mut step = g;
    for a in 0..block::size(study.numbers, block::first(study.numbers, k)) {
        step = row_step(study, k, a, step);
    }
    step
}

// Goes on from g over all pairs.
#[tactic(auto, unfolding(theory::specs::Fold::iter))]
fn entries_step(study: HeldStudy<'_>, g: u64) -> u64
    ensures { result ≡ entries_step study.entry.numbers.now g }
{
    let mut step = g;
    for k in 0..block::pairs(study.numbers) {
        step = pair_step(study, k, step);
    }
    step
}

// The step of a study's tariff: the greatest common divisor of all used entries of H, and 1 where all are 0.
#[tactic(auto, using(std::proofs::lemmas::Bool::Decides::nat_tests), unfolding(crate::specs::Steps::step_of))]
pub fn step_of(study: HeldStudy<'_>) -> u64
    ensures { result ≡ step_of study.entry.numbers.now }
{
    let step = entries_step(study, choices_step(study));
    if step == 0 { 1 } else { step }
}
