// Document 01, '03 shift': lifts and moves, as many as the study asks.
ghost use Rattle.std.specs.Prelude.{◌≡◌};
ghost use Rattle.lines.specs.declared.kind.Kind.TheVariants as kind;
ghost use Rattle.kinds.specs.Lines.{fields_asked};

use frames::frame::Frame;
use lines::field::{Field, Rule};
use lines::kind::Kind;
use lines::request::{FieldRun, Request, Shift};
use lines::verdict;
use refusals::Refusal;
use tables::block;
use tables::held_study::HeldStudy;

// How far a lift or a move is from 0 at most, in parts.
const HIGHEST: u64 = 1000000000000;
// The first lift; the moves are further fields of its run.
const LIFT: Field = Field {
    at: Kind::WIDTH,
    width: Shift::MOVE_WIDTH,
    rule: Rule::Around(HIGHEST),
    refusal: Refusal::Move,
};

// A shift.
#[tactic(auto, using(tables::proofs::Counting::move_count_most, tables::proofs::Study::trains_range), unfolding(crate::specs::Lines::shift_verdict))]
pub fn read_shift(frame: Frame<'_>, study: HeldStudy<'_>) -> Result<Request, Refusal>
    ensures { result ≡ fields_asked kind.Shift frame.entry.line.now study.entry.numbers.now }
{
    let n = block::trains(study.numbers);
    let count = counts::move_count(study);
    let first = LIFT.further(n);
    verdict::runs_verdict(frame, LIFT, n, first, count)?;
    Ok(Request::Shift(Shift {
        lifts: FieldRun {
            at: LIFT.at,
            count: n,
        },
        moves: FieldRun {
            at: first.at,
            count,
        },
    }))
}
