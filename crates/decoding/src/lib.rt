// The numbers of a load and the clauses of a study, read off an accepted line: what a caller stores.
#![tactic(auto)]

ghost use Rattle.std.specs.Prelude.{◌≡◌, ◌+◌, ◌<◌, ◌≤◌, []};
ghost use Rattle.refusals.specs.Verdicts.{Fine};
ghost use Rattle.tables.specs.LineLimits.{max_clauses};
ghost use Rattle.tables.specs.Numbers.{numbers as listed};
ghost use Rattle.frames.specs.Digits.{bytes};
ghost use Rattle.operations.specs.Given.{numbers_given};
ghost use Rattle.clauses.specs.Given.{clauses_given};
ghost use Rattle.lines.specs.declared.request.Request.TheVariants as request;
ghost use Rattle.lines.specs.Layout.{signed_in, end_of, literal_field, clause_at, clause_first, clause_second, clause_weight};
ghost use Rattle.kinds.specs.Load.{load_verdict, load_request};
ghost use Rattle.kinds.specs.Clauses.{clauses_verdict};
ghost use Rattle.decoding.specs.Numbers.{numbers_of};
ghost use Rattle.decoding.specs.Clauses.{clauses_of};

use arrayvec::ArrayVec;
use clauses::clause::Clause;
use frames::frame::Frame;
use frames::{fields, runs};
use kinds::sized_load::SizedLoad;
use kinds::{clause_fields, load};
use lines::field::Field;
use lines::request::{Clauses, Load};
use operations::load_numbers::LoadNumbers;

// The numbers of an accepted load, in lists that are lent empty, so that they are not copied.
pub fn decode_load_in(frame: Frame<'_>, q: Load, numbers: &mut LoadNumbers)
    requires { (load_verdict frame.line.now ≡ Fine) × (request.Load q ≡ load_request frame.line.now) × (numbers_given numbers.old ≡ listed q.scale [] [] [] [] []) }
    ensures { numbers_given numbers.new ≡ numbers_of frame.entry.line.now }
{
    let line = frame.line;
    runs::decode(
        line,
        q.sizes.at,
        Field::COUNT_WIDTH,
        q.sizes.count,
        &mut numbers.sizes,
    );
    runs::decode(
        line,
        q.choices.at,
        Load::COST_WIDTH,
        q.choices.count,
        &mut numbers.choices,
    );
    let sized = SizedLoad { frame };
    let mut at = q.pairs.at;
    for _k in 0..q.pairs.count {
        let count = load::entry_count(sized, at);
        numbers.pairs.push(load::trains_of(frame, at));
        runs::decode(
            line,
            at + Load::PAIR_WIDTH,
            Load::COST_WIDTH,
            count,
            &mut numbers.entries,
        );
        at = load::pair_end(at, count);
    }
}

// The numbers of an accepted load.
pub fn decode_load(frame: Frame<'_>, q: Load) -> LoadNumbers
    requires { (load_verdict frame.line.now ≡ Fine) × (request.Load q ≡ load_request frame.line.now) }
    ensures { numbers_given result ≡ numbers_of frame.entry.line.now }
{
    let mut numbers = LoadNumbers::new(q.scale);
    decode_load_in(frame, q, &mut numbers);
    numbers
}

// The literal at byte `at`.
#[tactic(auto, using(frames::proofs::Widths::field_below, frames::proofs::Bytes::framed_whole))]
fn literal(frame: Frame<'_>, at: usize) -> i64
    requires { end_of (literal_field at) ≤ bytes frame.line.now }
    ensures { result ≡ signed_in frame.entry.line.now (literal_field at) }
{
    let byte = fields::field(frame.line, at, Clauses::LITERAL_WIDTH);
    fields::signed(Clauses::LITERAL_WIDTH, byte)
}

// Clause k: its two literals and its weight.
fn clause(frame: Frame<'_>, k: usize) -> Clause
    requires { (k < max_clauses) × (clause_at (k + 1) ≤ bytes frame.line.now) }
    ensures first { result.first ≡ clause_first frame.entry.line.now k }
    ensures second { result.second ≡ clause_second frame.entry.line.now k }
    ensures weight { result.weight ≡ clause_weight frame.entry.line.now k }
{
    let at = clause_fields::clause_at(k);
    Clause {
        first: literal(frame, at),
        second: literal(frame, at + Clauses::LITERAL_WIDTH),
        weight: clause_fields::weight_field(k).number_in(frame.line),
    }
}

// The clauses of an accepted line, in a list that is lent empty, so that it is not copied.
pub fn decode_clauses_in(frame: Frame<'_>, clauses: &mut ArrayVec<Clause, { Clauses::MOST }>)
    requires { (clauses_verdict frame.line.now ≡ Fine) × (clauses.old.items ≡ []) }
    ensures { clauses_given clauses.new.items ≡ clauses_of frame.entry.line.now }
{
    for k in 0..clause_fields::COUNT.number_in(frame.line) as usize {
        clauses.push(clause(frame, k));
    }
}

// The clauses of an accepted line.
pub fn decode_clauses(frame: Frame<'_>) -> ArrayVec<Clause, { Clauses::MOST }>
    requires { clauses_verdict frame.line.now ≡ Fine }
    ensures { clauses_given result.items ≡ clauses_of frame.entry.line.now }
{
    let mut clauses = ArrayVec::new();
    decode_clauses_in(frame, &mut clauses);
    clauses
}
