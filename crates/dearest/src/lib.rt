// Document 02, change 13: the dearest study of given sizes: whether its search tries no more choices than are allowed, and its numbers.
// That the sizes are right is asked of each call: a struct of them would be made for two calls.
#![tactic(auto)]

ghost use Rattle.std.specs.Prelude.{◌≡◌, ◌≤◌, length};
ghost use Rattle.theory.specs.Lists.{nth};
ghost use Rattle.theory.specs.Sum.{sum};
ghost use Rattle.operations.specs.Given.{numbers_given};
ghost use Rattle.dearest.specs.Dearest.{SizesRight, tries_within, dearest_costs, dearest};

use arrayvec::ArrayVec;
use operations::load_numbers::{ChoiceCosts, LoadNumbers, Sizes};
use units::Scale;

// 24: 'that sum exceeds 10,000,000'.
const MOST_TRIES: u64 = 10000000;

// Whether the search of the dearest study of these sizes tries no more choices than that. It ends at the first sum above the limit: later ones only grow, and need not fit a number.
#[tactic(auto, using(crate::proofs::Within::sizes_so_far))]
pub fn tries_within(sizes: &[u64]) -> bool
    requires { SizesRight sizes.now }
    ensures { result ≡ tries_within sizes.now }
{
    let mut plans = 1;
    let mut tries = 0;
    for size in sizes {
        plans *= *size;
        tries += plans;
        if MOST_TRIES < tries {
            return false;
        }
    }
    true
}

// How many choices the first i trains have.
#[tactic(auto, using(crate::proofs::Costs::choices_most), unfolding(theory::specs::Sum::sum))]
fn choices_before(sizes: &[u64], i: usize) -> usize
    requires { (SizesRight sizes.now) × (i ≤ length sizes.now) }
    ensures { result ≡ sum i (nth sizes.now) }
{
    let mut count = 0;
    for j in 0..i {
        count += sizes[j] as usize;
    }
    count
}

// The costs of the choices: 1 for each of the last train, and 0 for all before them.
#[tactic(auto, using(crate::proofs::Costs::listing))]
fn list_costs(sizes: &[u64]) -> ChoiceCosts
    requires { SizesRight sizes.now }
    ensures { result.items ≡ dearest_costs sizes.now }
{
    let from = choices_before(sizes, sizes.len() - 1);
    let mut costs = ArrayVec::new();
    for o in 0..choices_before(sizes, sizes.len()) {
        costs.push(u64::from(from <= o));
    }
    costs
}

// The numbers of the dearest study of these sizes.
#[tactic(auto, unfolding(crate::specs::Dearest::dearest))]
pub fn dearest(sizes: Sizes) -> LoadNumbers
    requires { SizesRight sizes.items }
    ensures { numbers_given result ≡ dearest sizes.items }
{
    LoadNumbers {
        scale: Scale::known(Scale::MIN),
        choices: list_costs(&sizes),
        sizes,
        pairs: ArrayVec::new(),
        entries: ArrayVec::new(),
    }
}
