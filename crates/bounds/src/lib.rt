// Document 01, 'Problem and units', 'The published bound', and document 02, change 9: the one number that planners read, of a lent block.
#![tactic(auto)]

mod tariff;

ghost use Rattle.std.specs.Prelude.{◌≡◌};
ghost use Rattle.units.specs.Units.{number_of_points};
ghost use Rattle.bounds.specs.Bounds.{bound_of};

use tables::block;
use tables::held_study::HeldStudy;
use units::Points;

// The published bound of a study. Where no point is to be covered it is 0, and no cost is looked at.
#[tactic(auto, using(tables::proofs::Study::scale_range, tables::proofs::Study::constant_range, crate::proofs::Plans::published))]
pub fn published(study: HeldStudy<'_>) -> Points
    ensures { number_of_points result ≡ bound_of study.entry.numbers.now }
{
    let constant = block::constant(study.numbers);
    let points = u64::from(block::scale(study.numbers).points(constant));
    if points == 0 {
        return Points::from(0);
    }
    let step = tariff::step_of(study);
    Points::from(points.next_multiple_of(step))
}
