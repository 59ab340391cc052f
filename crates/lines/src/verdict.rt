// Document 01, 'What is declined', and document 02, change 5: fields from left to right, each judged as soon as it is read, and bytes left over.
ghost use Rattle.std.specs.Prelude.{◌≡◌, ◌<◌, ◌≤◌, ◌^◌};
ghost use Rattle.tables.specs.Numbers.{is_cost};
ghost use Rattle.frames.specs.Fields.{max_width};
ghost use Rattle.lines.specs.Layout.{below};
ghost use Rattle.lines.specs.Verdicts.{obeys, field_verdict, run_verdict, end_verdict, runs_verdict, last_verdict};

use crate::field::{Field, Rule};
use frames::fields;
use frames::frame::Frame;
use refusals::{Refusal, Verdict};
use tables::block::Block;

// Whether a field's number is within its rule.
fn obeys(rule: Rule, width: usize, v: u64) -> bool
    requires { (width ≤ max_width) × (v < 256 ^ width) }
    ensures { result ≡ obeys rule width v }
{
    match rule {
        Rule::Any => true,
        Rule::Between(low, high) => (low..=high).contains(&v),
        Rule::Around(limit) => fields::distance(width, v) <= limit,
        Rule::Priced => is_cost(v),
    }
}

// Whether a load may give v as a cost: at most the highest cost, or the mark of a forbidden entry.
// A range and one number above it: no range of the library has both.
#[tactic(auto, unfolding(tables::specs::Numbers::is_cost))]
fn is_cost(v: u64) -> bool
    ensures { result ≡ is_cost v }
{
    v <= Block::COST.into() || v == Block::FORBIDDEN
}

// One field: declined where it is not wholly there, else judged by its rule. Where any number will do, it is not read.
// It is inlined, so that a run of fields is a loop for each rule.
#[inline(always)]
#[tactic(auto, using(frames::proofs::Bytes::framed_whole, frames::proofs::Widths::field_below), unfolding(crate::specs::Verdicts::field_verdict))]
pub fn field_verdict(frame: Frame<'_>, f: Field) -> Verdict
    requires { (f.at < 2 ^ 40) × (f.width ≤ max_width) }
    ensures { result ≡ field_verdict frame.entry.line.now f }
{
    if frame.bytes() < f.at + f.width {
        return Err(Refusal::Fields);
    }
    if matches!(f.rule, Rule::Any) || obeys(f.rule, f.width, f.number_in(frame.line)) {
        Ok(())
    } else {
        Err(f.refusal)
    }
}

// A field whose number must be below this count: a train or a choice.
pub fn index_verdict(frame: Frame<'_>, f: Field, count: usize) -> Verdict
    requires { (f.at < 2 ^ 40) × (f.width ≤ max_width) × (1 ≤ count) }
    ensures { result ≡ field_verdict frame.entry.line.now (below f count) }
{
    field_verdict(frame, f.below(count))
}

// A run of fields, one after the other.
#[tactic(auto, using(refusals::proofs::Verdicts::first_none, refusals::proofs::Verdicts::first_more))]
pub fn run_verdict(frame: Frame<'_>, f: Field, count: usize) -> Verdict
    requires { (f.at < 2 ^ 32) × (f.width ≤ max_width) × (count < 2 ^ 32) }
    ensures { result ≡ run_verdict frame.entry.line.now f count }
{
    for k in 0..count {
        field_verdict(frame, f.further(k))?;
    }
    Ok(())
}

// The last field, and no bytes left over.
#[tactic(auto, unfolding(crate::specs::Verdicts::last_verdict))]
pub fn last_verdict(frame: Frame<'_>, f: Field) -> Verdict
    requires { (f.at < 2 ^ 40) × (f.width ≤ max_width) }
    ensures { result ≡ last_verdict frame.entry.line.now f }
{
    field_verdict(frame, f)?;
    end_verdict(frame.bytes(), f.end())
}

// Two runs of fields, and no bytes left over.
#[tactic(auto, unfolding(crate::specs::Verdicts::runs_verdict))]
pub fn runs_verdict(
    frame: Frame<'_>,
    first: Field,
    count: usize,
    second: Field,
    more: usize,
) -> Verdict
    requires first { (first.at < 2 ^ 32) × (first.width ≤ max_width) × (count < 2 ^ 32) }
    requires second { (second.at < 2 ^ 32) × (second.width ≤ max_width) × (more < 2 ^ 32) }
    ensures { result ≡ runs_verdict frame.entry.line.now first count second more }
{
    run_verdict(frame, first, count)?;
    run_verdict(frame, second, more)?;
    end_verdict(frame.bytes(), second.further(more).at)
}

// Whether a line of so many bytes ends at byte `at`.
pub fn end_verdict(bytes: usize, at: usize) -> Verdict
    ensures { result ≡ end_verdict bytes at }
{
    if at == bytes {
        Ok(())
    } else {
        Err(Refusal::Fields)
    }
}
