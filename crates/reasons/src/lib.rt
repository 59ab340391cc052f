// Document 02, change 8: why a choice is out, at a limit in points. All costs are those of T and c0, in parts.
#![tactic(auto)]

mod lane;
mod question;

ghost use Rattle.std.specs.Prelude.{◌≡◌, ◌<◌, ◌^◌};
ghost use Rattle.units.specs.Units.{number_of_points};
ghost use Rattle.tables.specs.Block.{trains, size};
ghost use Rattle.reasons.specs.Reasons.{reason_at};

use crate::question::Question;
use tables::block;
use tables::held_study::HeldStudy;
use units::Points;

// Why a choice is out.
#[derive(Clone, Copy)]
pub enum Reason {
    // It is not.
    Neither,
    // Its own cost reaches the limit, or it is forbidden.
    Own,
    // It reaches the limit with each choice of this train, or none of them is permitted beside it.
    Partner(usize),
}

// Why a choice of a train is out, at a limit.
#[tactic(auto, using(tables::proofs::Study::scale_range), unfolding(crate::specs::Reasons::reason_of))]
pub fn explain(study: HeldStudy<'_>, train: usize, choice: usize, limit: Points) -> Reason
    requires train_there { train < trains study.numbers.now }
    requires choice_there { choice < size study.numbers.now train }
    requires limit_in_range { number_of_points limit < 2 ^ 32 }
    ensures { result ≡ reason_at study.entry.numbers.now train choice (number_of_points limit) }
{
    let limit = block::scale(study.numbers).parts(limit);
    let question = Question {
        study,
        train,
        choice,
        limit,
    };
    if question.own_reaches() {
        return Reason::Own;
    }
    match question.first_out() {
        Some(k) => Reason::Partner(question.partner(k)),
        None => Reason::Neither,
    }
}
