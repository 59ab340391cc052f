// Document 02, change 11: plan records, for screens, for planners and written, carried out and answered. They leave the block.
ghost use Rattle.std.specs.Prelude.{◌≡◌, ◌≤◌, length};
ghost use Rattle.units.specs.Units.{number_of_points};
ghost use Rattle.lines.specs.declared.request.Request.TheVariants.{Planner as planner_of, Record as record_of};
ghost use Rattle.replies.specs.Replies.{screen_reply, longest_fixed};
ghost use Rattle.replies.specs.Wrote.{Wrote};
ghost use Rattle.requests.specs.Answer.{choices_in, recorded, requested, fitted};
ghost use Rattle.requests.specs.Wrote.{ChoicesThere, Chooses};

use arrayvec::ArrayVec;
use frames::runs;
use lines::field::Field;
use lines::kind::Kind;
use lines::request::{FieldRun, Planner, Record, Screen};
use records::HeldChoices;
use refusals::Refusal;
use replies::replies::{record_length, write_record, write_refusal, write_screen};
use tables::block::Block;
use tables::held_study::HeldStudy;
use units::Points;

// The choices, or the sizes, that stand in a line.
pub fn choices_in(line: &[u8], run: FieldRun) -> ArrayVec<u64, { Block::TRAINS }>
    requires { ChoicesThere line.now run }
    ensures { result.items ≡ choices_in line.now run }
{
    let mut choices: ArrayVec<u64, { Block::TRAINS }> = ArrayVec::new();
    runs::decode(line, run.at, Field::COUNT_WIDTH, run.count, &mut choices);
    choices
}

// Shows a screen the choices of a record. Neither the block nor what stands behind the choices is read.
#[tactic(auto, using(theory::proofs::Lists::list_length))]
pub fn answer_screen(line: &[u8], reply: &mut [u8], q: Screen) -> usize
    requires { (longest_fixed ≤ length reply.old) × ChoicesThere line.now q.choices }
    ensures { Wrote reply.old (screen_reply (choices_in line.now q.choices)) reply.new result }
{
    let choices = choices_in(line, q.choices);
    write_screen(reply, choices.as_slice())
}

// Answers with a record of a plan, where its figures are right and there is room for it.
#[tactic(auto, using(tables::proofs::Held::held_trains, tables::proofs::Study::trains_range, replies::proofs::Writing::wrote_none, replies::proofs::Lengths::refusal_length, replies::proofs::Lengths::record_reply_length))]
fn answer_figures(
    plan: HeldChoices<'_>,
    kind: Kind,
    bound: Points,
    cost: Points,
    reply: &mut [u8],
) -> usize
    requires { longest_fixed ≤ length reply.old }
    ensures { Wrote reply.old (fitted (length reply.old) plan.entry.study.numbers.now (recorded kind plan.entry.choices.now (number_of_points bound) (number_of_points cost) plan.entry.study.numbers.now)).reply reply.new result }
{
    if !plan.record_right(bound, cost) {
        return write_refusal(reply, Refusal::Figures);
    }
    if reply.len() < record_length(plan.choices.len()) {
        return 0;
    }
    write_record(reply, kind, plan.choices, bound, cost)
}

// Shows planners a record that is right.
#[tactic(auto, unfolding(crate::specs::Answer::requested), using(theory::proofs::Lists::list_length))]
pub fn answer_planner(line: &[u8], study: HeldStudy<'_>, reply: &mut [u8], q: Planner) -> usize
    requires { (longest_fixed ≤ length reply.old) × Chooses line.now study.numbers.now q.choices }
    ensures { Wrote reply.old (fitted (length reply.old) study.entry.numbers.now (requested (planner_of q) line.now study.entry.numbers.now)).reply reply.new result }
{
    let choices = choices_in(line, q.choices);
    let plan = HeldChoices::known(study, choices.as_slice());
    answer_figures(plan, Kind::Planner, q.bound, q.cost, reply)
}

// Writes a record of a plan, with the published bound.
#[tactic(auto, unfolding(crate::specs::Answer::requested), using(theory::proofs::Lists::list_length, records::proofs::Costs::cost_some, records::proofs::Costs::cost_none, records::proofs::Right::right_closed, replies::proofs::Lengths::refusal_length))]
pub fn answer_record(line: &[u8], study: HeldStudy<'_>, reply: &mut [u8], q: Record) -> usize
    requires { (longest_fixed ≤ length reply.old) × Chooses line.now study.numbers.now q.choices }
    ensures { Wrote reply.old (fitted (length reply.old) study.entry.numbers.now (requested (record_of q) line.now study.entry.numbers.now)).reply reply.new result }
{
    let choices = choices_in(line, q.choices);
    let plan = HeldChoices::known(study, choices.as_slice());
    match plan.cost() {
        Some(cost) => answer_figures(plan, Kind::Record, bounds::published(study), cost, reply),
        None => write_refusal(reply, Refusal::Figures),
    }
}
