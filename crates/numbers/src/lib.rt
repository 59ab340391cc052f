// Document 02, change 1: the numbers of the study that a block holds, as a load gives them: what loads that study.
// A place or a pair is bounded for one call: the loops count it, and a struct would be made in each turn.
#![tactic(auto)]

ghost use Rattle.std.specs.Prelude.{◌≡◌, ◌+◌, ◌*◌, ◌<◌, ◌≤◌, ◌++◌, length, map};
ghost use Rattle.theory.specs.Lists.{list_of, joined};
ghost use Rattle.tables.specs.Block.{block_length, max_pairs, entries_of_pair, at, trains, pairs, size, first, second};
ghost use Rattle.tables.specs.Plans.{shape_of};
ghost use Rattle.tables.specs.Counts.{pair_entries};
ghost use Rattle.operations.specs.Given.{numbers_given};
ghost use Rattle.operations.specs.Saved.{saved_cost, train_costs, pair_costs, saved_numbers};

use arrayvec::ArrayVec;
use operations::load_numbers::{ChoiceCosts, EntryCosts, LoadNumbers, Pairs, Sizes};
use tables::block::{Block, Places};
use tables::held_study::HeldStudy;
use tables::{block, places};

// The number in a load line that loads what stands at place p of H: for −1 that of a forbidden entry.
fn saved_cost(b: &Places, p: usize) -> u64
    requires { p < block_length }
    ensures { result ≡ saved_cost (at b.now p) }
{
    if !places::is_open(b, p) {
        return Block::FORBIDDEN;
    }
    places::get(b, p)
}

// Adds the costs at `count` places of H from `from` on.
fn read_costs<const CAP: usize>(
    b: &Places,
    from: usize,
    count: usize,
    costs: &mut ArrayVec<u64, CAP>,
)
    requires { (from + count ≤ block_length) × (length costs.old.items + count ≤ CAP) }
    ensures { costs.new.items ≡ costs.old.items ++ list_of count (λ a. saved_cost (at b.now (from + a))) }
{
    for a in 0..count {
        costs.push(saved_cost(b, from + a));
    }
}

// Lists the sizes of the trains.
fn read_sizes(study: HeldStudy<'_>, sizes: &mut Sizes)
    ensures { sizes.new.items ≡ list_of (trains study.entry.numbers.now) (size study.entry.numbers.now) }
{
    sizes.clear();
    for i in 0..block::trains(study.numbers) {
        sizes.push(block::size(study.numbers, i) as u64);
    }
}

// Lists the costs of every train, one train after the other.
fn read_choices(study: HeldStudy<'_>, choices: &mut ChoiceCosts)
    ensures { choices.new.items ≡ joined (trains study.entry.numbers.now) (train_costs study.entry.numbers.now) }
{
    choices.clear();
    for i in 0..block::trains(study.numbers) {
        let from = block::choice_place(Block::LOADED_CHOICES_FROM, i, 0);
        read_costs(study.numbers, from, block::size(study.numbers, i), choices);
    }
}

// Lists the trains of the pairs.
fn read_pairs(study: HeldStudy<'_>, out: &mut Pairs)
    ensures firsts { map (λ p. p.first) out.new.items ≡ list_of (pairs study.entry.numbers.now) (first study.entry.numbers.now) }
    ensures seconds { map (λ p. p.second) out.new.items ≡ list_of (pairs study.entry.numbers.now) (second study.entry.numbers.now) }
{
    out.clear();
    for k in 0..block::pairs(study.numbers) {
        out.push(block::trains_of(study.numbers, k));
    }
}

// Adds the costs of pair k, row by row.
fn read_pair(study: HeldStudy<'_>, k: usize, entries: &mut EntryCosts)
    requires { (k < pairs study.numbers.now) × (length entries.old.items + pair_entries (shape_of study.numbers.now) k ≤ max_pairs * entries_of_pair) }
    ensures { entries.new.items ≡ entries.old.items ++ pair_costs study.entry.numbers.now k }
{
    let columns = counts::columns_of(study, k);
    for a in 0..counts::rows_of(study, k) {
        let from = block::entry_place(Block::LOADED_ENTRIES_FROM, k, a, 0);
        read_costs(study.numbers, from, columns, entries);
    }
}

// Lists the costs of every pair, one pair after the other.
fn read_entries(study: HeldStudy<'_>, entries: &mut EntryCosts)
    ensures { entries.new.items ≡ joined (pairs study.entry.numbers.now) (pair_costs study.entry.numbers.now) }
{
    entries.clear();
    for k in 0..block::pairs(study.numbers) {
        read_pair(study, k, entries);
    }
}

// Lists the numbers of a held study in lists that are lent, whatever these held.
#[tactic(auto, unfolding(operations::specs::Saved::saved_numbers), using(tables::proofs::Study::scale_range))]
pub fn list(study: HeldStudy<'_>, numbers: &mut LoadNumbers)
    ensures { numbers_given numbers.new ≡ saved_numbers study.entry.numbers.now }
{
    numbers.scale = block::scale(study.numbers);
    read_sizes(study, &mut numbers.sizes);
    read_choices(study, &mut numbers.choices);
    read_pairs(study, &mut numbers.pairs);
    read_entries(study, &mut numbers.entries);
}

// The numbers of a held study. Where they need not be returned, `list` saves clearing and copying such long lists.
#[tactic(auto, using(tables::proofs::Study::scale_range))]
pub fn numbers(study: HeldStudy<'_>) -> LoadNumbers
    ensures { numbers_given result ≡ saved_numbers study.entry.numbers.now }
{
    let mut numbers = LoadNumbers::new(block::scale(study.numbers));
    list(study, &mut numbers);
    numbers
}
