// Document 01, '05 certify': W and weights, as many as the study asks.
ghost use Rattle.std.specs.Prelude.{◌≡◌};
ghost use Rattle.lines.specs.declared.kind.Kind.TheVariants as kind;
ghost use Rattle.kinds.specs.Lines.{fields_asked};

use frames::frame::Frame;
use lines::field::{Field, Rule};
use lines::kind::Kind;
use lines::request::{Certify, FieldRun, Request};
use lines::verdict;
use refusals::Refusal;
use tables::held_study::HeldStudy;

// The highest W.
const HIGHEST: u64 = 100000;
// W.
const FULL: Field = Field {
    at: Kind::WIDTH,
    width: Certify::WEIGHT_WIDTH,
    rule: Rule::Between(1, HIGHEST),
    refusal: Refusal::FullWeight,
};
// The first weight: any number of its width.
const WEIGHT: Field = Field {
    at: FULL.at + FULL.width,
    width: Certify::WEIGHT_WIDTH,
    rule: Rule::Any,
    refusal: Refusal::Fields,
};

// A certificate.
#[tactic(auto, using(tables::proofs::Counting::weight_count_most, crate::proofs::Accepted::certify_fine), unfolding(crate::specs::Lines::certify_verdict))]
pub fn read_certify(frame: Frame<'_>, study: HeldStudy<'_>) -> Result<Request, Refusal>
    ensures { result ≡ fields_asked kind.Certify frame.entry.line.now study.entry.numbers.now }
{
    let count = counts::weight_count(study);
    verdict::runs_verdict(frame, FULL, 1, WEIGHT, count)?;
    Ok(Request::Certify(Certify {
        full: FULL.number_in(frame.line),
        weights: FieldRun {
            at: WEIGHT.at,
            count,
        },
    }))
}
