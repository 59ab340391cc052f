// Document 02, change 8, 'Kind 0A': train, choice and limit.
ghost use Rattle.std.specs.Prelude.{◌≡◌};
ghost use Rattle.lines.specs.declared.kind.Kind.TheVariants as kind;
ghost use Rattle.kinds.specs.Lines.{fields_asked};

use crate::add;
use frames::frame::Frame;
use lines::field::{Field, Rule};
use lines::request::{Explain, Request};
use refusals::Refusal;
use tables::held_study::HeldStudy;
use units::Points;

// The limit, any number of its width.
const LIMIT: Field = Field {
    at: add::CHOICE.at + add::CHOICE.width,
    width: Explain::LIMIT_WIDTH,
    rule: Rule::Any,
    refusal: Refusal::Fields,
};

// The question whether a choice reaches a limit.
#[tactic(auto, unfolding(crate::specs::Lines::explain_verdict))]
pub fn read_explain(frame: Frame<'_>, study: HeldStudy<'_>) -> Result<Request, Refusal>
    ensures { result ≡ fields_asked kind.Explain frame.entry.line.now study.entry.numbers.now }
{
    add::choice_verdict(frame, study, LIMIT)?;
    Ok(Request::Explain(Explain {
        train: add::TRAIN.number_in(frame.line) as usize,
        choice: add::CHOICE.number_in(frame.line) as usize,
        limit: Points::from(LIMIT.number_in(frame.line)),
    }))
}
