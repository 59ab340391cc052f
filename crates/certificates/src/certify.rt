// Document 01, '05 certify', and document 02, change 5. The sums of all weights are judged before any is weighed: each weight is then at most W, so that E fits. Where all sums agree, no weight may stand on a
// forbidden entry.
ghost use Rattle.std.specs.Prelude.{◌≡◌, ◌<◌, ◌≤◌};
ghost use Rattle.tables.specs.LineLimits.{max_full_weight};
ghost use Rattle.tables.specs.Block.{trains};
ghost use Rattle.tables.specs.Plans.{shape_of};
ghost use Rattle.certificates.specs.Certify.{balanced, WeightsFor, weights_of, certificate};
ghost use Rattle.certificates.specs.Runs.{run_sum, WeightRun, WeightsWithin, run_weighed, train_matches, trains_match, WeightRuns, runs_match, PairFrom, pair_matches, pairs_match, TrainsWithin, RowsWithin, PairsWithin, train_weighed, trains_weighed, pair_weighed, pairs_weighed};

use crate::weighing::Weighing;
use refusals::Refusal;
use tables::block::Block;
use tables::held_study::HeldStudy;
use tables::{block, places};

// What an accepted certificate shows.
#[derive(Clone, Copy)]
pub struct Ceiling {
    // E = W × c0: shown beside E in any case, so that it is no Option of it.
    pub reached: bool,
    // E.
    pub weighted: u64,
}

// Judges the weights' sums, then what is forbidden, and gives E and whether the ceiling is reached.
#[tactic(auto, using(crate::proofs::Runs::judged))]
pub fn certify(study: HeldStudy<'_>, full: u64, weights: &[u64]) -> Result<Ceiling, Refusal>
    requires full_in_range { full ≤ max_full_weight }
    requires weights_for { WeightsFor study.numbers.now weights.now }
    ensures { result ≡ certificate study.entry.numbers.now (weights_of study.entry.numbers.now full weights.now) }
{
    let weighing = Weighing { study, weights };
    if !weighing.sums_agree(full) {
        return Err(Refusal::Sums);
    }
    let choices = weighing.trains_weighed().ok_or(Refusal::ForbiddenWeight)?;
    let entries = weighing.pairs_weighed().ok_or(Refusal::ForbiddenWeight)?;
    let floor = full * u64::from(block::constant(study.numbers));
    let weighted = floor + choices + entries;
    Ok(Ceiling {
        reached: weighted == floor,
        weighted,
    })
}

impl Weighing<'_> {
    // ---- the sums

    // The sum of `count` weights from `from` on, `step` apart.
    #[tactic(auto, using(crate::proofs::Runs::sums))]
    fn run_sum(self, from: usize, step: usize, count: usize) -> u64
        requires { WeightRun self.weights.now from step count }
        ensures { result ≡ run_sum self.entry.weights.now from step count }
    {
        let mut sum = 0;
        for k in 0..count {
            sum += self.weights[from + step * k];
        }
        sum
    }

    // Whether the weights of train i sum to W.
    #[tactic(auto, using(tables::proofs::Study::trains_range, crate::proofs::Runs::train_run))]
    fn train_matches(self, full: u64, i: usize) -> bool
        requires { i < trains self.study.numbers.now }
        ensures { result ≡ train_matches self.entry.study.numbers.now self.entry.weights.now full i }
    {
        let from = counts::choices_before(self.study, i);
        self.run_sum(from, 1, block::size(self.study.numbers, i)) == full
    }

    // Whether each train's weights sum to W.
    fn trains_match(self, full: u64) -> bool
        ensures { result ≡ trains_match self.entry.study.numbers.now self.entry.weights.now full }
    {
        (0..block::trains(self.study.numbers)).all(|i| self.train_matches(full, i))
    }

    // Whether `runs` runs, the first from `from` on and each `apart` further than the one before, sum to the weights from `choices` on.
    fn runs_match(
        self,
        from: usize,
        apart: usize,
        step: usize,
        count: usize,
        choices: usize,
        runs: usize,
    ) -> bool
        requires { WeightRuns self.weights.now from apart step count choices runs }
        ensures { result ≡ runs_match self.entry.weights.now from apart step count choices runs }
    {
        (0..runs).all(|r| {
            self.run_sum(from + apart * r, step, count) == self.weights[choices + r]
        })
    }

    // Whether the rows of pair k, whose weights begin at `from`, sum to the weights of its first train, and its columns to those of its second.
    #[tactic(auto, using(crate::proofs::Runs::pair_runs), unfolding(crate::specs::Runs::pair_matches))]
    fn pair_matches(self, k: usize, from: usize) -> bool
        requires { PairFrom self.study.numbers.now k from }
        ensures { result ≡ pair_matches self.entry.study.numbers.now self.entry.weights.now k }
    {
        let pair = block::trains_of(self.study.numbers, k);
        let rows = block::size(self.study.numbers, pair.first);
        let columns = block::size(self.study.numbers, pair.second);
        let first = counts::choices_before(self.study, pair.first);
        let second = counts::choices_before(self.study, pair.second);
        self.runs_match(from, columns, 1, columns, first, rows)
            && self.runs_match(from, 1, columns, rows, second, columns)
    }

    // Whether the rows and columns of every pair sum to the weights of its trains.
    #[tactic(auto, using(crate::proofs::Runs::pair_walk), unfolding(crate::specs::Runs::pairs_match))]
    fn pairs_match(self) -> bool
        ensures { result ≡ pairs_match self.entry.study.numbers.now self.entry.weights.now }
    {
        let mut from = counts::choice_count(self.study);
        for k in 0..block::pairs(self.study.numbers) {
            if !self.pair_matches(k, from) {
                return false;
            }
            from += counts::pair_entries(self.study, k);
        }
        true
    }

    // Whether all sums agree.
    #[tactic(auto, using(crate::proofs::Runs::balanced_runs))]
    fn sums_agree(self, full: u64) -> bool
        ensures { result ≡ balanced (shape_of self.entry.study.numbers.now) (weights_of self.entry.study.numbers.now full self.entry.weights.now) }
    {
        self.trains_match(full) && self.pairs_match()
    }

    // ---- E

    // The sum of `count` weights from `from` on, each times its held cost, from `place` of the block on. None where a weight above 0 stands on a forbidden entry: T, like H, is below 0 there.
    #[tactic(auto, using(crate::proofs::Runs::run_walk))]
    fn run_weighed(self, from: usize, place: usize, count: usize) -> Option<u64>
        requires { WeightsWithin self.weights.now from self.study.numbers.now place count }
        ensures { result ≡ run_weighed self.entry.weights.now from self.entry.study.numbers.now place count }
    {
        let numbers = self.study.numbers;
        let mut sum = 0;
        for k in 0..count {
            let weight = self.weights[from + k];
            if weight > 0 && !places::is_open(numbers, place + k) {
                return None;
            }
            sum += weight * places::get(numbers, place + k);
        }
        Some(sum)
    }

    // The part that the choices of train i have in E.
    #[tactic(auto, using(crate::proofs::Runs::train_part))]
    fn train_weighed(self, i: usize) -> Option<u64>
        requires there { i < trains self.study.numbers.now }
        requires trains_within { TrainsWithin self.study.numbers.now self.weights.now }
        ensures { result ≡ train_weighed self.entry.study.numbers.now self.entry.weights.now i }
    {
        let from = counts::choices_before(self.study, i);
        let place = block::choice_place(Block::HELD_CHOICES_FROM, i, 0);
        self.run_weighed(from, place, block::size(self.study.numbers, i))
    }

    // The choices' part of E.
    #[tactic(auto, using(crate::proofs::Runs::parts), unfolding(crate::specs::Runs::trains_spared, crate::specs::Runs::trains_weighted))]
    fn trains_weighed(self) -> Option<u64>
        requires { TrainsWithin self.study.numbers.now self.weights.now }
        ensures { result ≡ trains_weighed self.entry.study.numbers.now self.entry.weights.now }
    {
        let mut sum = 0;
        for i in 0..block::trains(self.study.numbers) {
            sum += self.train_weighed(i)?;
        }
        Some(sum)
    }

    // The part that pair k, whose weights begin at `from`, has in E.
    #[tactic(auto, using(crate::proofs::Runs::parts, crate::proofs::Runs::row_places), unfolding(crate::specs::Runs::pair_spared, crate::specs::Runs::pair_weighted))]
    fn pair_weighed(self, k: usize, from: usize) -> Option<u64>
        requires pair_from { PairFrom self.study.numbers.now k from }
        requires rows_within { RowsWithin self.study.numbers.now self.weights.now k }
        ensures { result ≡ pair_weighed self.entry.study.numbers.now self.entry.weights.now k }
    {
        let rows = counts::rows_of(self.study, k);
        let columns = counts::columns_of(self.study, k);
        let mut sum = 0;
        for a in 0..rows {
            let place = block::entry_place(Block::HELD_ENTRIES_FROM, k, a, 0);
            sum += self.run_weighed(from + columns * a, place, columns)?;
        }
        Some(sum)
    }

    // The pairs' part of E.
    #[tactic(auto, using(crate::proofs::Runs::parts, crate::proofs::Runs::pair_inside), unfolding(crate::specs::Runs::pairs_spared, crate::specs::Runs::pairs_weighted))]
    fn pairs_weighed(self) -> Option<u64>
        requires { PairsWithin self.study.numbers.now self.weights.now }
        ensures { result ≡ pairs_weighed self.entry.study.numbers.now self.entry.weights.now }
    {
        let mut sum = 0;
        let mut from = counts::choice_count(self.study);
        for k in 0..block::pairs(self.study.numbers) {
            sum += self.pair_weighed(k, from)?;
            from += counts::pair_entries(self.study, k);
        }
        Some(sum)
    }
}
