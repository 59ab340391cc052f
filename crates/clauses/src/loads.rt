// Document 02, change 7: the load of the numbers that clauses stand for.
ghost use Rattle.std.specs.Prelude.{◌≡◌, map, ℕ, ◌*◌, ◌/◌, ◌%◌, ◌^◌, ◌<◌, ◌≤◌, length, replicate};
ghost use Rattle.theory.specs.Lists.{nth, list_of};
ghost use Rattle.tables.specs.Block.{max_trains, max_pairs};
ghost use Rattle.clauses.specs.Clauses.{InLimits, clause_choices, clause_entries, max_codes, max_cells, choice_cost_at, entry_cost_at, numbers_from, costs_within, sums_within};
ghost use Rattle.clauses.specs.Given.{clauses_given, numbers_made};
ghost use Rattle.clauses.specs.Outcomes.{clauses_outcome, clauses_block};

use crate::charges::{Cells, Charges};
use crate::clause::Clause;
use crate::clear_clauses::ClearClauses;
use crate::literals::{CHOICES, ENTRIES};
use crate::{charges, literals};
use arrayvec::ArrayVec;
use operations::lent_study::LentStudy;
use operations::load;
use operations::load_numbers::{Pairs, Sizes};
use refusals::{Refusal, Verdict};
use tables::block::{Block, Pair, Places};
use units::{Points, Scale};

// The size of every train.
const SIZE: u64 = CHOICES as u64;

// How many choices all trains have at most.
const ALL_CHOICES: usize = CHOICES * Block::TRAINS;
// How many entries all pairs have at most.
const ALL_ENTRIES: usize = ENTRIES * Block::PAIRS;

// The costs of the choices, by train then choice.
type ChoiceCosts = ArrayVec<u64, ALL_CHOICES>;
// The costs of each pair, 'a outer, b inner'.
type EntryCosts = ArrayVec<u64, ALL_ENTRIES>;

// The numbers of a load of clauses, in lists of no more room than they take.
#[derive(Drop)]
struct ClauseNumbers {
    scale: Scale,
    sizes: Sizes,
    choices: ChoiceCosts,
    pairs: Pairs,
    entries: EntryCosts,
}

// The sizes of n trains.
fn list_sizes(n: usize) -> Sizes
    requires { n ≤ max_trains }
    ensures { result.items ≡ replicate n clause_choices }
{
    let mut sizes = ArrayVec::from([SIZE; Block::TRAINS]);
    sizes.truncate(n);
    sizes
}

// The costs of the cells of a list's entries, entry by entry. By the bound on N the list fits in memory.
fn list_cells<const N: usize, F: Fn(usize) -> usize>(
    cells: &Cells,
    count: usize,
    cell: F,
) -> ArrayVec<u64, N>
    requires room { count ≤ N }
    requires fits { N < 2 ^ 32 }
    requires calls { (o : ℕ) → o < count → F.pre cell o }
    requires there { (o p : ℕ) → o < count → F.post cell o p → p < max_cells }
    ensures whole { length result.items ≡ count }
    ensures costs { (o : ℕ) → o < count → (p : ℕ) × F.post cell o p × (nth result.items o ≡ nth cells.now p) }
{
    let mut costs = ArrayVec::new();
    for o in 0..count {
        costs.push(cells[cell(o)]);
    }
    costs
}

// The costs of the choices of n trains, from the cells.
fn list_choices(n: usize, cells: &Cells) -> ChoiceCosts
    requires { n ≤ max_trains }
    ensures { result.items ≡ list_of (clause_choices * n) (choice_cost_at (nth cells.now)) }
{
    list_cells(cells, CHOICES * n, |o| {
        let i = o / CHOICES;
        let a = o % CHOICES;
        literals::cell_at(i, a, i, a)
    })
}

// Each pair's two trains, from its code.
fn list_pairs(codes: &[usize]) -> Pairs
    requires { length codes.now ≤ max_pairs }
    ensures firsts { map (λ p. p.first) result.items ≡ map (λ o. o / max_trains) codes.now }
    ensures seconds { map (λ p. p.second) result.items ≡ map (λ o. o % max_trains) codes.now }
{
    let mut pairs = ArrayVec::new();
    for code in codes {
        pairs.push(Pair {
            first: code / Block::TRAINS,
            second: code % Block::TRAINS,
        });
    }
    pairs
}

// The costs of the pairs, from the cells.
fn list_entries(cells: &Cells, codes: &[usize]) -> EntryCosts
    requires { (length codes.now ≤ max_pairs) × ((k : ℕ) → k < length codes.now → nth codes.now k < max_codes) }
    ensures { result.items ≡ list_of (clause_entries * length codes.now) (entry_cost_at (nth cells.now) codes.now) }
{
    list_cells(cells, ENTRIES * codes.len(), |o| {
        ENTRIES * codes[o / ENTRIES] + o % ENTRIES
    })
}

// The numbers of a load of n trains, from the cells and the codes.
// n and the codes are bounded here and in the lists above, in a clause each: a struct with its constructor would be longer than the clauses.
fn numbers(n: usize, scale: Scale, cells: &Cells, codes: &[usize]) -> ClauseNumbers
    requires { (n ≤ max_trains) × (length codes.now ≤ max_pairs) × ((k : ℕ) → k < length codes.now → nth codes.now k < max_codes) }
    ensures { numbers_made result ≡ numbers_from n scale (nth cells.now) codes.now }
{
    ClauseNumbers {
        scale,
        sizes: list_sizes(n),
        choices: list_choices(n, cells),
        pairs: list_pairs(codes),
        entries: list_entries(cells, codes),
    }
}

// Whether no sum is above its limit.
fn costs_within(costs: &[u64]) -> bool
    ensures { result ≡ costs_within costs.now }
{
    costs.iter().all(|cost| Points::from(*cost) <= Block::COST)
}

// Whether no sum of either list is above its limit.
#[tactic(auto, unfolding(crate::specs::Clauses::sums_within))]
fn sums_within(numbers: &ClauseNumbers) -> bool
    ensures { result ≡ sums_within (numbers_made numbers.now) }
{
    costs_within(&numbers.choices) && costs_within(&numbers.entries)
}

// Loads a study of n trains written as clauses: 20, then 10, and nothing is written before all is judged.
pub fn load_clauses(block: &mut Places, n: usize, scale: Scale, clauses: &[Clause]) -> Verdict
    requires { InLimits n scale (clauses_given clauses.now) }
    ensures value { result ≡ clauses_outcome n scale (clauses_given clauses.now) }
    ensures block_after { block.new ≡ clauses_block n scale (clauses_given clauses.now) block.old }
{
    let mut charges = Charges::new();
    let clear = ClearClauses::known(clauses);
    charges::charge_in(clear, &mut charges.cells, &mut charges.codes);
    if Block::PAIRS < charges.codes.len() {
        return Err(Refusal::PairsAbove);
    }
    let numbers = numbers(n, scale, &charges.cells, &charges.codes);
    if !sums_within(&numbers) {
        return Err(Refusal::CostAbove);
    }
    let lent = LentStudy::known(
        numbers.scale,
        &numbers.sizes,
        &numbers.choices,
        &numbers.pairs,
        &numbers.entries,
    );
    load::load_lent(block, &lent);
    Ok(())
}
