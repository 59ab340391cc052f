// Document 02, change 11: a record that is read for screens or for planners, and the choices of one that is to be written.
ghost use Rattle.std.specs.Prelude.{◌≡◌, ◌*◌, ◌<◌, ◌≤◌, length};
ghost use Rattle.frames.specs.Fields.{max_width};
ghost use Rattle.lines.specs.declared.kind.Kind.TheVariants as kind;
ghost use Rattle.lines.specs.Layout.{number_in, further, record_bound_field, record_cost_field};
ghost use Rattle.kinds.specs.Lines.{fields_asked};
ghost use Rattle.kinds.specs.Records.{held_verdict, record_verdict};

use arrayvec::ArrayVec;
use frames::frame::Frame;
use frames::runs;
use lines::field::{Field, Rule};
use lines::kind::Kind;
use lines::request::{FieldRun, Planner, Record, Request, Screen};
use lines::verdict;
use refusals::{Refusal, Verdict};
use tables::block::Block;
use tables::held_study::HeldStudy;
use tables::{block, choices};
use units::Points;

// n of a record: any number of its width, as in every field of a record and of a plan.
const TRAINS: Field = Field {
    at: Kind::WIDTH,
    width: Field::COUNT_WIDTH,
    rule: Rule::Any,
    refusal: Refusal::Fields,
};
// The first choice of a record.
const CHOICE: Field = Field {
    at: TRAINS.at + TRAINS.width,
    ..TRAINS
};
// The first choice of a plan whose record is to be written.
const PLAN_CHOICE: Field = Field {
    at: Kind::WIDTH,
    ..TRAINS
};

// The bound of a record of n trains.
fn bound_field(n: usize) -> Field
    requires { n < 256 }
    ensures { result ≡ record_bound_field n }
{
    Field {
        at: CHOICE.further(n).at,
        width: Field::FIGURE_WIDTH,
        ..CHOICE
    }
}

// Its cost, behind the bound.
fn cost_field(n: usize) -> Field
    requires { n < 256 }
    ensures { result ≡ record_cost_field n }
{
    Field {
        at: bound_field(n).end(),
        ..bound_field(n)
    }
}

// Whether the n numbers from this field on are choices that the study has, one for each train.
#[tactic(auto, using(tables::proofs::Study::trains_range, crate::proofs::RecordsAccepted::held_list, crate::proofs::RecordsAccepted::held_other))]
fn held_verdict(line: &[u8], study: HeldStudy<'_>, first: Field, n: usize) -> Verdict
    requires { (first.width ≤ max_width) × (2 * (further first n).at ≤ length line.now) }
    ensures { result ≡ held_verdict study.entry.numbers.now n (λ i. number_in line.now (further first i)) }
{
    if n != block::trains(study.numbers) {
        return Err(Refusal::NotHeld);
    }
    let mut listed: ArrayVec<u64, { Block::TRAINS }> = ArrayVec::new();
    runs::decode(line, first.at, first.width, n, &mut listed);
    if choices::choices_held(study, listed.as_slice()) {
        Ok(())
    } else {
        Err(Refusal::NotHeld)
    }
}

// A record: its length first, then its choices.
#[tactic(auto, using(crate::proofs::RecordsAccepted::trains_read), unfolding(crate::specs::Records::record_verdict))]
fn record_verdict(frame: Frame<'_>, study: HeldStudy<'_>) -> Verdict
    ensures { result ≡ record_verdict frame.entry.line.now study.entry.numbers.now }
{
    verdict::field_verdict(frame, TRAINS)?;
    let n = TRAINS.number_in(frame.line) as usize;
    verdict::end_verdict(frame.bytes(), cost_field(n).end())?;
    held_verdict(frame.line, study, CHOICE, n)
}

// A record for a screen.
#[tactic(auto, using(crate::proofs::RecordsAccepted::record_read))]
pub fn read_screen(frame: Frame<'_>, study: HeldStudy<'_>) -> Result<Request, Refusal>
    ensures { result ≡ fields_asked kind.Screen frame.entry.line.now study.entry.numbers.now }
{
    record_verdict(frame, study)?;
    Ok(Request::Screen(Screen {
        choices: FieldRun {
            at: CHOICE.at,
            count: TRAINS.number_in(frame.line) as usize,
        },
    }))
}

// A record for planners.
#[tactic(auto, using(crate::proofs::RecordsAccepted::record_read))]
pub fn read_planner(frame: Frame<'_>, study: HeldStudy<'_>) -> Result<Request, Refusal>
    ensures { result ≡ fields_asked kind.Planner frame.entry.line.now study.entry.numbers.now }
{
    record_verdict(frame, study)?;
    let n = TRAINS.number_in(frame.line) as usize;
    Ok(Request::Planner(Planner {
        choices: FieldRun {
            at: CHOICE.at,
            count: n,
        },
        bound: Points::from(bound_field(n).number_in(frame.line)),
        cost: Points::from(cost_field(n).number_in(frame.line)),
    }))
}

// The choices of a record that is to be written.
#[tactic(auto, using(tables::proofs::Study::trains_range), unfolding(crate::specs::Records::plan_verdict))]
pub fn read_plan(frame: Frame<'_>, study: HeldStudy<'_>) -> Result<Request, Refusal>
    ensures { result ≡ fields_asked kind.Record frame.entry.line.now study.entry.numbers.now }
{
    let n = block::trains(study.numbers);
    verdict::end_verdict(frame.bytes(), PLAN_CHOICE.further(n).at)?;
    held_verdict(frame.line, study, PLAN_CHOICE, n)?;
    Ok(Request::Record(Record {
        choices: FieldRun {
            at: PLAN_CHOICE.at,
            count: n,
        },
    }))
}
