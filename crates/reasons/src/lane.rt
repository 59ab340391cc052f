// What a pair adds to a choice of one of its trains: the entries of that choice's row or column, each with the cost of the partner's choice.
// `Lane` stands for the fact that pair and choice are there.
ghost use Rattle.std.specs.Prelude.{◌≡◌, ◌<◌, ◌^◌, IfSome};
ghost use Rattle.units.specs.Units.{number_of_parts};
ghost use Rattle.tables.specs.Block.{block_length, max_choices, pairs, size, entry_place};
ghost use Rattle.tables.specs.Plans.{shape_of, held_costs};
ghost use Rattle.rewriting.specs.Moves.{lane_train};
ghost use Rattle.reasons.specs.Reasons.{partner_train, row_of, column_of, both_open, partner_cost, partner_found};

use rewriting::sides::Side;
use tables::block::Block;
use tables::held_study::HeldStudy;
use tables::{block, places};
use units::Parts;

// A pair, and a choice of one of its trains.
#[derive(Clone, Copy)]
pub struct Lane<'a> {
    pub study: HeldStudy<'a>,
    pub pair: usize,
    // Which of the two trains has the choice.
    pub side: Side,
    pub choice: usize,
    ghost pair_there: { pair < pairs study.numbers.now },
    ghost choice_there: { choice < size study.numbers.now (lane_train side study.numbers.now pair) },
}

impl Lane<'_> {
    // The partner: the pair's other train.
    #[tactic(auto, using(tables::proofs::Study::shape_ranges))]
    fn partner(self) -> usize
        ensures { result ≡ partner_train (shape_of self.entry.study.numbers.now) self.entry.side self.entry.pair }
    {
        match self.side {
            Side::Rows => block::second(self.study.numbers, self.pair),
            Side::Columns => block::first(self.study.numbers, self.pair),
        }
    }

    // Where the entry with choice c of the partner stands, in the table of pairs that begins at `from`.
    #[tactic(auto, using(tables::proofs::Study::shape_ranges))]
    fn place(self, from: usize, c: usize) -> usize
        requires { (from < block_length) × (c < max_choices) }
        ensures { result ≡ entry_place from self.entry.pair (row_of self.entry.side self.entry.choice c) (column_of self.entry.side self.entry.choice c) }
    {
        match self.side {
            Side::Rows => block::entry_place(from, self.pair, self.choice, c),
            Side::Columns => block::entry_place(from, self.pair, c, self.choice),
        }
    }

    // Whether the partner's choice c and its entry are both permitted.
    #[tactic(auto, using(tables::proofs::Study::shape_ranges))]
    fn both_open(self, c: usize) -> bool
        requires { c < max_choices }
        ensures { result ≡ both_open (shape_of self.entry.study.numbers.now) self.entry.side self.entry.pair self.entry.choice c }
    {
        let b = self.study.numbers;
        block::choice_open(b, self.partner(), c)
            && places::is_open(b, self.place(Block::LOADED_ENTRIES_FROM, c))
    }

    // What the pair adds with choice c of the partner: the entry, and the partner's cost.
    #[tactic(auto, using(tables::proofs::Study::shape_ranges, rewriting::proofs::Shape::study_figure), unfolding(tables::specs::Plans::held_costs))]
    fn cost(self, c: usize) -> Parts
        requires { c < max_choices }
        ensures { number_of_parts result ≡ partner_cost (shape_of self.entry.study.numbers.now) (held_costs self.entry.study.numbers.now) self.entry.side self.entry.pair self.entry.choice c }
    {
        let b = self.study.numbers;
        let entry = Parts::from(places::get(b, self.place(Block::HELD_ENTRIES_FROM, c)));
        entry + block::held_choice(b, self.partner(), c)
    }

    // The least that the pair adds, over the partner's choices where both are permitted.
    #[tactic(auto, using(tables::proofs::Study::shape_ranges), unfolding(rewriting::specs::Leasts::found_of))]
    pub fn least(self) -> Option<Parts>
        ensures value { result ≡ partner_found (shape_of self.entry.study.numbers.now) (held_costs self.entry.study.numbers.now) self.entry.side self.entry.pair self.entry.choice }
        ensures bound { IfSome result (λ p. number_of_parts p < 2 ^ 40) }
    {
        let mut least = None;
        for c in 0..block::size(self.study.numbers, self.partner()) {
            if self.both_open(c) {
                let cost = self.cost(c);
                least = Some(least.map_or(cost, |so_far: Parts| so_far.min(cost)));
            }
        }
        least
    }
}
