// Document 02, change 7, 'Kind 09': the fields of a study written as clauses, judged from left to right.
// That k is a clause is asked of each call: the loops count it.
ghost use Rattle.std.specs.Prelude.{◌≡◌, ◌≤◌, nat_abs};
ghost use Rattle.tables.specs.LineLimits.{max_clauses};
ghost use Rattle.frames.specs.Digits.{bytes};
ghost use Rattle.lines.specs.Asked.{request_if};
ghost use Rattle.lines.specs.Layout.{signed_in, end_of, clause_at, literal_field, clause_weight_field};
ghost use Rattle.kinds.specs.Clauses.{clause_verdict, clause_run_verdict, clauses_verdict, clauses_request};

use crate::load;
use clauses::literals;
use frames::fields;
use frames::frame::Frame;
use lines::field::{Field, Rule};
use lines::request::{Clauses, FieldRun, Load, Request};
use lines::verdict;
use refusals::{Refusal, Verdict};
use tables::block::Block;

// The number of clauses.
pub const COUNT: Field = Field {
    at: load::SCALE.at + load::SCALE.width,
    width: Clauses::COUNT_WIDTH,
    rule: Rule::Between(0, Clauses::MOST as u64),
    refusal: Refusal::Range,
};

// Where clause k begins.
pub fn clause_at(k: usize) -> usize
    requires { k ≤ max_clauses }
    ensures { result ≡ clause_at k }
{
    COUNT.at + COUNT.width + Clauses::WIDTH * k
}

// Its weight, behind its two literals.
pub fn weight_field(k: usize) -> Field
    requires { k ≤ max_clauses }
    ensures { result ≡ clause_weight_field k }
{
    Field {
        at: clause_at(k) + Clauses::LITERAL_WIDTH + Clauses::LITERAL_WIDTH,
        width: Load::COST_WIDTH,
        rule: Rule::Between(0, Block::COST.into()),
        refusal: Refusal::Cost,
    }
}

// How far the literal at byte `at` is from 0.
#[tactic(auto, using(frames::proofs::Widths::field_below, frames::proofs::Bytes::framed_whole))]
fn literal_size(frame: Frame<'_>, at: usize) -> usize
    requires { end_of (literal_field at) ≤ bytes frame.line.now }
    ensures { result ≡ nat_abs (signed_in frame.entry.line.now (literal_field at)) }
{
    let literal = fields::field(frame.line, at, Clauses::LITERAL_WIDTH);
    fields::distance(Clauses::LITERAL_WIDTH, literal) as usize
}

// Clause k: its two literals, then its weight.
#[tactic(auto, unfolding(crate::specs::Clauses::clause_verdict))]
fn clause_verdict(frame: Frame<'_>, k: usize) -> Verdict
    requires { (clause_at 0 ≤ bytes frame.line.now) × (k ≤ max_clauses) }
    ensures { result ≡ clause_verdict frame.entry.line.now k }
{
    let weight = weight_field(k);
    if frame.bytes() < weight.at {
        return Err(Refusal::Fields);
    }
    let n = load::TRAINS.number_in(frame.line) as usize;
    let at = clause_at(k);
    let first = literal_size(frame, at);
    let second = literal_size(frame, at + Clauses::LITERAL_WIDTH);
    if !literals::right(n, first, second) {
        return Err(Refusal::Literal);
    }
    verdict::field_verdict(frame, weight)
}

// So many clauses, and no bytes left over.
fn clause_run_verdict(frame: Frame<'_>, count: usize) -> Verdict
    requires { (clause_at 0 ≤ bytes frame.line.now) × (count ≤ max_clauses) }
    ensures { result ≡ clause_run_verdict frame.entry.line.now count }
{
    for k in 0..count {
        clause_verdict(frame, k)?;
    }
    verdict::end_verdict(frame.bytes(), clause_at(count))
}

// The fields of a study written as clauses.
#[tactic(auto, unfolding(crate::specs::Clauses::clauses_verdict))]
fn clauses_verdict(frame: Frame<'_>) -> Verdict
    ensures { result ≡ clauses_verdict frame.entry.line.now }
{
    load::head_verdict(frame)?;
    verdict::field_verdict(frame, COUNT)?;
    clause_run_verdict(frame, COUNT.number_in(frame.line) as usize)
}

// A study written as clauses.
pub fn read_clauses(frame: Frame<'_>) -> Result<Request, Refusal>
    ensures { result ≡ request_if (clauses_verdict frame.entry.line.now) (clauses_request frame.entry.line.now) }
{
    clauses_verdict(frame)?;
    Ok(Request::Clauses(Clauses {
        trains: load::TRAINS.number_in(frame.line) as usize,
        scale: load::scale(frame)?,
        clauses: FieldRun {
            at: clause_at(0),
            count: COUNT.number_in(frame.line) as usize,
        },
    }))
}
