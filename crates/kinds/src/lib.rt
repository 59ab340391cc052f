// Document 01, 'Lines' and 'What is declined': the fields of each kind, judged, and the request that they make.
#![tactic(auto)]

ghost use Rattle.std.specs.Prelude.{◌≡◌};
ghost use Rattle.tables.specs.Known.{block_numbers};
ghost use Rattle.lines.specs.Asked.{line_from};
ghost use Rattle.kinds.specs.Lines.{study_line};

use frames::frame::Frame;
use lines::kind::Kind;
use lines::request::Request;
use refusals::Refusal;
use tables::block::Block;

mod add;
mod bare;
mod certify;
pub mod clause_fields;
mod dearest;
mod explain_fields;
pub mod load;
mod order;
mod record_fields;
mod search;
mod shift;
pub mod sized_load;

// The fields of each kind. Some kinds need a loaded study.
#[tactic(auto, using(tables::proofs::Study::study_not_fresh, tables::proofs::Study::fresh_is_fresh), unfolding(crate::specs::Lines::study_line))]
pub fn read_fields(frame: Frame<'_>, kind: Kind, block: Block<'_>) -> Result<Request, Refusal>
    ensures { line_from result ≡ study_line kind frame.entry.line.now (block_numbers block.entry) }
{
    if kind.needs_study() && matches!(block, Block::Fresh) {
        return Err(Refusal::FreshBlock);
    }
    match (kind, block) {
        (Kind::Load, _) => load::read_load(frame),
        (Kind::Clauses, _) => clause_fields::read_clauses(frame),
        (Kind::Dearest, _) => dearest::read_dearest(frame),
        (Kind::Add, Block::Held(study)) => add::read_add(frame, study),
        (Kind::Shift, Block::Held(study)) => shift::read_shift(frame, study),
        (Kind::Tighten, Block::Held(_)) => bare::read_bare(frame, Request::Tighten),
        (Kind::Certify, Block::Held(study)) => certify::read_certify(frame, study),
        (Kind::Search, Block::Held(_)) => search::read_search(frame),
        (Kind::Save, Block::Held(_)) => bare::read_bare(frame, Request::Save),
        (Kind::Round, Block::Held(_)) => bare::read_bare(frame, Request::Round),
        (Kind::Explain, Block::Held(study)) => explain_fields::read_explain(frame, study),
        (Kind::Order, Block::Held(study)) => order::read_order(frame, study),
        (Kind::Screen, Block::Held(study)) => record_fields::read_screen(frame, study),
        (Kind::Planner, Block::Held(study)) => record_fields::read_planner(frame, study),
        (Kind::Record, Block::Held(study)) => record_fields::read_plan(frame, study),
        (_, Block::Fresh) => unreachable!(),
    }
}
