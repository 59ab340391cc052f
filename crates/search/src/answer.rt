// Document 01, 'Replies', Search: the whole search, and what it answers.
ghost use Rattle.std.specs.Prelude.{◌≡◌, ℕ, ◌+◌, ◌≤◌, ◌<◌, ◌^◌};
ghost use Rattle.units.specs.Units.{number_of_parts, in_points};
ghost use Rattle.theory.specs.Lists.{nth};
ghost use Rattle.theory.specs.Order.{IsOrder};
ghost use Rattle.tables.specs.Block.{trains};
ghost use Rattle.tables.specs.LineLimits.{max_budget};
ghost use Rattle.search.specs.Held.{left_of, walk_of};
ghost use Rattle.search.specs.Answer.{best_shown, shown, search_answer, answer_in};

use crate::walk::{Best, Search};
use rows::listing::Listing;
use rows::ordered_study::Order;
use rows::table::Table;
use rows::{sums, table};
use std::array;
use tables::block;
use tables::block::Block;
use tables::held_study::HeldStudy;
use units::{Parts, Points, Scale};

// What a search answers: whether the walk ended or was spent, its tries, and the best plan where one was found.
#[derive(Clone, Copy)]
pub struct Found {
    // A spent search shows its tries and its best plan too: an enum of how it ended would have both in each of its cases.
    pub ended: bool,
    pub count: u64,
    pub best: Option<BestPlan>,
}

// A best plan, with its total and its cost.
#[derive(Clone, Copy)]
pub struct BestPlan {
    pub total: Parts,
    pub cost: Points,
    pub plan: [u8; Block::TRAINS],
}

// A total in points, rounded up.
// One call, yet a function: its contract says 'in points, rounded up', and the edit that shows the parts themselves changes its one line.
fn cost_of(s: Scale, total: Parts) -> Points
    requires { number_of_parts total < 2 ^ 63 }
    ensures { result ≡ in_points s total }
{
    s.points(total)
}

// The best plan, where one is known.
fn best_plan(s: Scale, best: &Best) -> Option<BestPlan>
    ensures { (budget left : ℕ) → result ≡ best_shown s (walk_of budget left best.now) }
{
    if best.to_beat >= Best::UNKNOWN {
        return None;
    }
    let total = Parts::from(best.to_beat);
    Some(BestPlan {
        total,
        cost: cost_of(s, total),
        plan: best.plan,
    })
}

// What the walk with so much left, and with this best, comes to.
fn answer_of(s: Scale, budget: u64, left: u64, best: &Best) -> Found
    requires { (left_of left best.now ≤ budget + 1) × (budget ≤ max_budget) }
    ensures { result ≡ shown s (walk_of budget left best.now) }
{
    let rest = left + best.left_then;
    Found {
        ended: rest != 0,
        count: budget - rest.saturating_sub(1),
        best: best_plan(s, best),
    }
}

// The best plan that the budget lets the walk find, with the trains in this order.
pub fn search_in(study: HeldStudy<'_>, order: &Order, budget: u64) -> Found
    requires each_once { IsOrder (trains study.numbers.now) (nth order.now) }
    requires in_range { budget ≤ max_budget }
    ensures { result ≡ answer_in (nth order.now) study.entry.numbers.now budget }
{
    // Before all else, so that its memory is cleared once: locals are cleared where a function begins, and what stands between keeps the compiler from leaving out the second time.
    let mut costs = [[0; Block::CHOICES]; Block::CHOICES * Block::PAIRS];
    let listing = &Listing::new(study, order);
    table::lay_costs(listing, &mut costs);
    // A reference, since a walk over a local table that lends its costs has no proof.
    let table = &Table::new(listing, &costs);
    let mut walk = Search::new(table);
    sums::lay_own(listing, &mut walk.sums);
    let left = walk.open_train(0, block::constant(study.numbers), budget + 1);
    let best = Best {
        plan: listing.ordered.by_train(&walk.best.plan),
        ..walk.best
    };
    answer_of(table.scale, budget, left, &best)
}

// The best plan that the budget lets the walk find, with the trains in the block's order.
pub fn search(study: HeldStudy<'_>, budget: u64) -> Found
    requires { budget ≤ max_budget }
    ensures { result ≡ search_answer study.entry.numbers.now budget }
{
    let order = array::from_fn(|d| block::order(study.numbers, d));
    search_in(study, &order, budget)
}
