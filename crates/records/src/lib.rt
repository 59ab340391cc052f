// Document 02, change 11: what a plan costs in points, by the loaded costs of a block, and whether the figures of its record are right. The block is read and never written.
#![tactic(auto)]

ghost use Rattle.std.specs.Prelude.{◌≡◌, ◌<◌, true, length};
ghost use Rattle.theory.specs.Lists.{nth};
ghost use Rattle.units.specs.Units.{number_of_points};
ghost use Rattle.tables.specs.Block.{max_choices, trains, pairs};
ghost use Rattle.tables.specs.Plans.{shape_of, choices_held};
ghost use Rattle.records.specs.Records.{plan_cost, record_right};
ghost use Rattle.records.specs.Parts.{choice_cost, choices_cost, pair_cost, pairs_cost};

use tables::block;
use tables::held_study::HeldStudy;
use units::Points;

// A choice for each train of a study. It stands for the fact that all of them are there.
#[derive(Clone, Copy)]
pub struct HeldChoices<'a> {
    pub study: HeldStudy<'a>,
    pub choices: &'a [u64],
    ghost held: { choices_held (shape_of study.numbers.now) (length choices.now) (nth choices.now) ≡ true },
}

impl<'a> HeldChoices<'a> {
    // The choices that are known to be there.
    pub fn known(study: HeldStudy<'a>, choices: &'a [u64]) -> HeldChoices<'a>
        requires { choices_held (shape_of study.numbers.now) (length choices.now) (nth choices.now) ≡ true }
        ensures { (result.study.numbers.now ≡ study.entry.numbers.now) × (result.choices.now ≡ choices.now) }
    {
        HeldChoices { study, choices }
    }

    // The choice of train i.
    fn choice(self, i: usize) -> usize
        requires { i < trains self.study.numbers.now }
        ensures there { result ≡ nth self.entry.choices.now i }
        ensures small { result < max_choices }
    {
        self.choices[i] as usize
    }

    // What the choice of train i costs, if it is not forbidden.
    #[tactic(auto, using(tables::proofs::Study::trains_range))]
    fn choice_cost(self, i: usize) -> Option<Points>
        requires { i < trains self.study.numbers.now }
        ensures { result ≡ choice_cost self.entry.study.numbers.now (nth self.entry.choices.now) i }
    {
        let numbers = self.study.numbers;
        let choice = self.choice(i);
        if block::choice_open(numbers, i, choice) {
            Some(block::loaded_choice(numbers, i, choice))
        } else {
            None
        }
    }

    // What the choices cost, if none is forbidden.
    #[tactic(auto, using(crate::proofs::Costs::parts))]
    fn choices_cost(self) -> Option<Points>
        ensures { result ≡ choices_cost self.entry.study.numbers.now (nth self.entry.choices.now) }
    {
        let mut sum = Points::from(0);
        for i in 0..block::trains(self.study.numbers) {
            sum = sum + self.choice_cost(i)?;
        }
        Some(sum)
    }

    // What the choices of pair k's trains cost together, if that is not forbidden.
    #[tactic(auto, using(tables::proofs::Study::shape_ranges))]
    fn pair_cost(self, k: usize) -> Option<Points>
        requires { k < pairs self.study.numbers.now }
        ensures { result ≡ pair_cost self.entry.study.numbers.now (nth self.entry.choices.now) k }
    {
        let numbers = self.study.numbers;
        let pair = block::trains_of(numbers, k);
        let first = self.choice(pair.first);
        let second = self.choice(pair.second);
        if block::entry_open(numbers, k, first, second) {
            Some(block::loaded_entry(numbers, k, first, second))
        } else {
            None
        }
    }

    // What the pairs cost, if none of their entries is forbidden.
    #[tactic(auto, using(crate::proofs::Costs::parts))]
    fn pairs_cost(self) -> Option<Points>
        ensures { result ≡ pairs_cost self.entry.study.numbers.now (nth self.entry.choices.now) }
    {
        let mut sum = Points::from(0);
        for k in 0..block::pairs(self.study.numbers) {
            sum = sum + self.pair_cost(k)?;
        }
        Some(sum)
    }

    // What the plan costs. None where one of its entries is forbidden.
    #[tactic(auto, using(crate::proofs::Costs::whole))]
    pub fn cost(self) -> Option<Points>
        ensures { result ≡ plan_cost self.entry.study.numbers.now (nth self.entry.choices.now) }
    {
        let choices = self.choices_cost()?;
        let pairs = self.pairs_cost()?;
        Some(choices + pairs)
    }

    // Whether a record of the plan with this bound and this cost is right.
    #[tactic(auto, using(std::proofs::lemmas::Bool::Decides::nat_tests, crate::proofs::Right::right_found))]
    pub fn record_right(self, bound: Points, cost: Points) -> bool
        ensures { result ≡ record_right self.entry.study.numbers.now (nth self.entry.choices.now) (number_of_points bound) (number_of_points cost) }
    {
        match self.cost() {
            Some(total) => cost == total && bound <= total,
            None => false,
        }
    }
}
