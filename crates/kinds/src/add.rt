// Document 01, '02 add': train, choice and points. The train and the choice of every kind that has the two.
ghost use Rattle.std.specs.Prelude.{◌≡◌, ◌<◌, ◌≤◌, ◌^◌};
ghost use Rattle.frames.specs.Fields.{max_width};
ghost use Rattle.lines.specs.declared.kind.Kind.TheVariants as kind;
ghost use Rattle.lines.specs.Layout.{points_field};
ghost use Rattle.kinds.specs.Lines.{choice_verdict, fields_asked};

use frames::frame::Frame;
use lines::field::{Field, Rule};
use lines::kind::Kind;
use lines::request::{Add, Load, Request};
use lines::verdict;
use refusals::{Refusal, Verdict};
use tables::block;
use tables::block::Block;
use tables::held_study::HeldStudy;
use units::Points;

// The train and the choice; the study decides how many there are.
pub const TRAIN: Field = Field {
    at: Kind::WIDTH,
    width: Field::COUNT_WIDTH,
    rule: Rule::Any,
    refusal: Refusal::Absent,
};

pub const CHOICE: Field = Field {
    at: TRAIN.at + TRAIN.width,
    width: Field::COUNT_WIDTH,
    rule: Rule::Any,
    refusal: Refusal::Absent,
};

// Where the points begin.
const POINTS_AT: usize = CHOICE.at + CHOICE.width;

// The points.
fn points_field() -> Field
    ensures { result ≡ points_field }
{
    Field {
        at: POINTS_AT,
        width: Load::COST_WIDTH,
        rule: Rule::Between(0, Block::COST.into()),
        refusal: Refusal::Cost,
    }
}

// Train, choice and a last field.
#[tactic(auto, using(tables::proofs::Study::trains_range))]
pub fn choice_verdict(frame: Frame<'_>, study: HeldStudy<'_>, last: Field) -> Verdict
    requires { (last.at < 2 ^ 40) × (last.width ≤ max_width) }
    ensures { result ≡ choice_verdict frame.entry.line.now study.entry.numbers.now last }
{
    verdict::index_verdict(frame, TRAIN, block::trains(study.numbers))?;
    let size = block::size(study.numbers, TRAIN.number_in(frame.line) as usize);
    verdict::index_verdict(frame, CHOICE, size)?;
    verdict::last_verdict(frame, last)
}

// An added cost.
#[tactic(auto, unfolding(crate::specs::Lines::add_verdict))]
pub fn read_add(frame: Frame<'_>, study: HeldStudy<'_>) -> Result<Request, Refusal>
    ensures { result ≡ fields_asked kind.Add frame.entry.line.now study.entry.numbers.now }
{
    choice_verdict(frame, study, points_field())?;
    Ok(Request::Add(Add {
        train: TRAIN.number_in(frame.line) as usize,
        choice: CHOICE.number_in(frame.line) as usize,
        points: Points::from(points_field().number_in(frame.line)),
    }))
}
