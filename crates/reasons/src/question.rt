// A choice that is asked about, and the tests that it is put to. `Question` stands for the fact that train and choice are there.
ghost use Rattle.std.specs.Prelude.{◌≡◌, ◌<◌, ◌^◌, IfSome};
ghost use Rattle.units.specs.Units.{number_of_parts};
ghost use Rattle.tables.specs.Block.{trains, pairs, size};
ghost use Rattle.tables.specs.Plans.{shape_of, held_costs};
ghost use Rattle.rewriting.specs.Moves.{lane_train};
ghost use Rattle.theory.specs.First.{first_passing};
ghost use Rattle.reasons.specs.Reasons.{own_cost, own_reaches, pair_reaches, out_by, partner_in};

use crate::lane::Lane;
use rewriting::sides::Side;
use tables::block;
use tables::held_study::HeldStudy;
use units::Parts;

// A choice of a train of a study, and the limit, in parts.
#[derive(Clone, Copy)]
pub struct Question<'a> {
    pub study: HeldStudy<'a>,
    pub train: usize,
    pub choice: usize,
    pub limit: Parts,
    ghost train_there: { train < trains study.numbers.now },
    ghost choice_there: { choice < size study.numbers.now train },
}

impl Question<'_> {
    // The constant and the choice's own cost.
    #[tactic(auto, using(tables::proofs::Study::trains_range, tables::proofs::Study::size_range, tables::proofs::Study::constant_range, tables::proofs::Study::held_choice_high), unfolding(tables::specs::Plans::held_costs))]
    fn own_cost(self) -> Parts
        ensures value { number_of_parts result ≡ own_cost (held_costs self.entry.study.numbers.now) self.entry.train self.entry.choice }
        ensures bound { number_of_parts result < 2 ^ 40 }
    {
        let b = self.study.numbers;
        block::constant(b) + block::held_choice(b, self.train, self.choice)
    }

    // Whether the choice is forbidden, or reaches the limit by itself.
    #[tactic(auto, using(tables::proofs::Study::trains_range, tables::proofs::Study::size_range, std::proofs::lemmas::Bool::Decides::nat_tests), unfolding(crate::specs::Reasons::own_reaches))]
    pub fn own_reaches(self) -> bool
        ensures { result ≡ own_reaches (shape_of self.entry.study.numbers.now) (held_costs self.entry.study.numbers.now) self.entry.train self.entry.choice (number_of_parts self.entry.limit) }
    {
        !block::choice_open(self.study.numbers, self.train, self.choice)
            || self.own_cost() >= self.limit
    }

    // Whether the limit is reached with the least that pair k adds, or no choice of the partner is permitted there. The side's train is the one that is asked about.
    #[tactic(auto, using(std::proofs::lemmas::Bool::Decides::nat_tests), unfolding(crate::specs::Reasons::pair_reaches))]
    fn pair_reaches(self, k: usize, side: Side) -> bool
        requires { (k < pairs self.study.numbers.now) × (lane_train side self.study.numbers.now k ≡ self.train) }
        ensures { result ≡ pair_reaches (shape_of self.entry.study.numbers.now) (held_costs self.entry.study.numbers.now) side k self.entry.train self.entry.choice (number_of_parts self.entry.limit) }
    {
        let lane = Lane {
            study: self.study,
            pair: k,
            side,
            choice: self.choice,
        };
        match lane.least() {
            Some(least) => self.own_cost() + least >= self.limit,
            None => true,
        }
    }

    // Whether pair k has the train, and reaches the limit.
    #[tactic(auto, using(tables::proofs::Study::pairs_range, std::proofs::lemmas::Bool::Decides::nat_tests), unfolding(crate::specs::Reasons::out_by))]
    fn out_by(self, k: usize) -> bool
        requires { k < pairs self.study.numbers.now }
        ensures { result ≡ out_by (shape_of self.entry.study.numbers.now) (held_costs self.entry.study.numbers.now) self.entry.train self.entry.choice (number_of_parts self.entry.limit) k }
    {
        let pair = block::trains_of(self.study.numbers, k);
        (pair.first == self.train && self.pair_reaches(k, Side::Rows))
            || (pair.second == self.train && self.pair_reaches(k, Side::Columns))
    }

    // The first pair that has the train and reaches the limit.
    #[tactic(auto, using(theory::proofs::First::first_below))]
    pub fn first_out(self) -> Option<usize>
        ensures value { result ≡ first_passing (pairs self.entry.study.numbers.now) (out_by (shape_of self.entry.study.numbers.now) (held_costs self.entry.study.numbers.now) self.entry.train self.entry.choice (number_of_parts self.entry.limit)) }
        ensures bound { IfSome result (λ k. k < pairs self.entry.study.numbers.now) }
    {
        (0..block::pairs(self.study.numbers)).find(|k| self.out_by(*k))
    }

    // The partner of the train in pair k.
    #[tactic(auto, using(tables::proofs::Study::pairs_range, std::proofs::lemmas::Bool::Decides::nat_tests))]
    pub fn partner(self, k: usize) -> usize
        requires { k < pairs self.study.numbers.now }
        ensures { result ≡ partner_in (shape_of self.entry.study.numbers.now) self.entry.train k }
    {
        let pair = block::trains_of(self.study.numbers, k);
        if pair.first == self.train {
            pair.second
        } else {
            pair.first
        }
    }
}
