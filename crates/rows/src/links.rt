// Which pairs a train begins, and in which row of sums a train's choices are summed so far.
ghost use Rattle.std.specs.Prelude.{◌≡◌, ℕ, ◌+◌, ◌≤◌, ◌<◌, get_or};
ghost use Rattle.tables.specs.Block.{trains, pairs};
ghost use Rattle.rows.specs.Listing.{numbers_of, shape_in};
ghost use Rattle.rows.specs.Links.{Begin};
ghost use Rattle.rows.specs.Table.{Unlinked, linked_pair, Linked};

use crate::listing::Listing;
use crate::sums;
use std::array;
use tables::block;
use tables::block::Block;

// The row in which each train's choices are summed so far, and the row to which the costs of each pair that is linked are added.
pub struct Links {
    pub ends: [usize; Block::TRAINS],
    pub bases: [usize; Block::PAIRS],
}

impl Links {
    // Each train has its own row: no pair is linked.
    fn none() -> Links
        ensures { Unlinked result }
    {
        Links {
            ends: array::from_fn(|j| j),
            bases: [0; Block::PAIRS],
        }
    }

    // Links pair k of the list: its costs are added to the last row so far of its later train, and its own row is now the last.
    #[tactic(auto, using(tables::proofs::Study::pairs_range, tables::proofs::Study::trains_range))]
    fn link(&mut self, listing: &Listing<'_>, k: usize)
        requires { k < pairs (numbers_of listing.now) }
        ensures { self.new ≡ linked_pair (shape_in listing.now) k self.old }
    {
        let j = listing.later(k);
        self.bases[k] = self.ends[j];
        self.ends[j] = sums::PAIR_ROWS_FROM + k;
    }
}

// The rows with every pair linked.
#[tactic(auto, using(tables::proofs::Study::pairs_range))]
pub fn rows(listing: &Listing<'_>) -> Links
    ensures { Linked (shape_in listing.now) (pairs (numbers_of listing.now)) result }
{
    let mut links = Links::none();
    for k in 0..block::pairs(listing.ordered.study.numbers) {
        links.link(listing, k);
    }
    links
}

// The first pair of the list whose earlier train is at place t or later, or m; the pairs before k begin earlier.
#[tactic(auto, using(tables::proofs::Study::pairs_range, crate::proofs::Laying::listing_ascends))]
fn begin(listing: &Listing<'_>, t: usize, k: usize) -> usize
    requires { (k ≤ pairs (numbers_of listing.now)) × ((i : ℕ) → i < k → (shape_in listing.now).first i < t) }
    ensures { Begin (shape_in listing.now) t result }
{
    let m = block::pairs(listing.ordered.study.numbers);
    for l in k..m {
        if t <= listing.earlier(l) {
            return l;
        }
    }
    m
}

// The first pair of each place, and behind them the end of the last one's.
#[tactic(auto, using(tables::proofs::Study::trains_range))]
pub fn begins(listing: &Listing<'_>) -> [usize; Block::TRAINS + 1]
    ensures { (t : ℕ) → t < trains (numbers_of listing.now) + 1 → Begin (shape_in listing.now) t (get_or result t 0) }
{
    let mut begins = [0; Block::TRAINS + 1];
    let mut k = 0;
    for t in 0..block::trains(listing.ordered.study.numbers) + 1 {
        k = begin(listing, t, k);
        begins[t] = k;
    }
    begins
}
