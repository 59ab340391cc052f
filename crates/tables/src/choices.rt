// Document 02, change 11: which choices a study has.
ghost use Rattle.std.specs.Prelude.{◌≡◌, length};
ghost use Rattle.theory.specs.Lists.{nth};
ghost use Rattle.tables.specs.Plans.{shape_of, choices_held};

use crate::block;
use crate::held_study::HeldStudy;

// Whether a list has a choice for each train of a study, and no further one, each below its train's size.
#[tactic(auto, unfolding(crate::specs::Plans::choices_held))]
pub fn choices_held(study: HeldStudy<'_>, choices: &[u64]) -> bool
    ensures { result ≡ choices_held (shape_of study.entry.numbers.now) (length choices.now) (nth choices.now) }
{
    let n = block::trains(study.numbers);
    choices.len() == n && (0..n).all(|i| (choices[i] as usize) < block::size(study.numbers, i))
}
