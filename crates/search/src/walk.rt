// Document 01, '06 search': 'Opening a train tries its choices; trying a choice opens the next train.'
//
// `left` is handed on: one more than the tries left, and 0 once nothing more is tried, so that a try has one test for the budget and the bound.
ghost use Rattle.std.specs.Prelude.{◌≡◌, ◌<◌, ◌^◌};
ghost use Rattle.units.specs.Units.{number_of_parts};
ghost use Rattle.search.specs.Held.{meets_by, best_by, handed_on, Opened, Tried, OpenedTo, TriedTo};
ghost use Rattle.search.specs.Start.{Started};

use rows::sums::Rows;
use rows::table::Table;
use rows::{sums, table};
use tables::block::Block;
use units::Parts;

// What is left where no try is: one more than the tries.
const NO_TRY: u64 = 1;

// The best plan so far.
#[derive(Clone, Copy)]
pub struct Best {
    // Its total, and while no plan is known the wall: a try compares once, and one with a forbidden entry never beats it.
    pub to_beat: u64,
    // What was left when it met the bound, 0 before: no Option, since it is added to what is left.
    pub left_then: u64,
    // Its choices.
    pub plan: [u8; Block::TRAINS],
}

impl Best {
    // The total to beat while no plan is known.
    // The wall and no Option, so that a try does not ask whether a plan is known: while none is, the comparison drops those with a forbidden entry and no others.
    pub const UNKNOWN: u64 = table::WALL;
}

// A walk over the plans of a shape that has this table.
#[derive(Drop)]
pub struct Search<'a> {
    pub table: &'a Table<'a>,
    // What the choices of later trains come to so far.
    pub sums: Rows,
    // The choices of the trains so far.
    pub chosen: [u8; Block::TRAINS],
    pub best: Best,
}

// Whether a total's cost is the published bound: both in points.
// That a total is below 2^63 is asked of each call: a limit in `Parts` itself would not be kept by its `+`.
fn meets(table: &Table<'_>, total: Parts) -> bool
    requires { number_of_parts total < 2 ^ 63 }
    ensures { result ≡ meets_by table.now (number_of_parts total) }
{
    table.scale.points(total) == table.bound
}

impl<'a> Search<'a> {
    // Nothing is tried, and no row of sums is laid.
    pub fn new(table: &'a Table<'a>) -> Search<'a>
        ensures table { result.table ≡ table.entry }
        ensures started { Started result }
    {
        Search {
            table,
            sums: [[0; Block::CHOICES]; sums::ROWS],
            chosen: [0; Block::TRAINS],
            best: Best {
                to_beat: Best::UNKNOWN,
                left_then: 0,
                plan: [0; Block::TRAINS],
            },
        }
    }

    // The plan chosen becomes the best, with `rest` left. Where it meets the bound nothing more is tried: `rest` is kept, and 0 handed on.
    fn become_best(&mut self, total: Parts, rest: u64) -> u64
        requires { number_of_parts total < 2 ^ 63 }
        ensures best { self.new ≡ record self.old { best = best_by (meets_by self.old.table.now (number_of_parts total)) (number_of_parts total) rest self.old.chosen } }
        ensures left { result ≡ handed_on (meets_by self.old.table.now (number_of_parts total)) rest }
    {
        let (left_then, left) = if meets(self.table, total) {
            (rest, 0)
        } else {
            (0, rest)
        };
        self.best = Best {
            to_beat: total.into(),
            left_then,
            plan: self.chosen,
        };
        left
    }

    // Opens train t: what its choices come to is taken from the sums, then they are tried, from 0 on. The result is what is left.
    #[cycle(open_train_try_choice)]
    pub fn open_train(&mut self, t: usize, partial: Parts, left: u64) -> u64
        requires { Opened self.old t (number_of_parts partial) left }
        ensures { OpenedTo self.old t (number_of_parts partial) left result self.new }
    {
        // A local, since an index through `self.table` has no proof where the table lends its costs.
        let table = self.table;
        let row = sums::row_from(&self.sums, table.ends[t], partial);
        let mut rest = left;
        for a in 0..table.sizes[t] {
            rest = self.try_choice(t, a, Parts::from(row[a]), rest);
        }
        rest
    }

    // Tries choice a of train t, which comes to `total`: it is carried to the sums, and opens the next train.
    #[cycle(open_train_try_choice)]
    fn try_choice(&mut self, t: usize, a: usize, total: Parts, left: u64) -> u64
        requires { Tried self.old t a (number_of_parts total) left }
        ensures { TriedTo self.old t a (number_of_parts total) left result self.new }
    {
        if left <= NO_TRY {
            return 0;
        }
        let rest = left - 1;
        if self.best.to_beat <= u64::from(total) {
            return rest;
        }
        self.chosen[t] = a as u8;
        let u = t + 1;
        if u == self.table.trains {
            return self.become_best(total, rest);
        }
        sums::carry(self.table, &mut self.sums, &self.chosen, t);
        self.open_train(u, total, rest)
    }
}
