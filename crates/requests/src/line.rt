// A line on a well-formed block: read, judged, carried out and answered.
ghost use Rattle.std.specs.Prelude.{◌≡◌, true, ◌≤◌, length};
ghost use Rattle.replies.specs.Replies.{longest_fixed};
ghost use Rattle.tables.specs.WellFormed.{well_formed};
ghost use Rattle.requests.specs.Answer.{requested, fitted, line_answer};
ghost use Rattle.requests.specs.Wrote.{Answers, Asks};

use crate::{
    add_line, certify_line, clauses_line, dearest_line, explain_line, load_line, order_line,
    record_lines, round_line, save_line, search_line, shift_line, tighten_line,
};
use lines::request::{Line, Request};
use replies::replies::write_refusal;
use tables::block::{Block, Places};
use tables::held_study::HeldStudy;

// Answers a line: what it asks is done, or it is declined.
#[tactic(auto, unfolding(crate::specs::Answer::line_answer))]
pub fn answer_line(line: &[u8], block: &mut Places, reply: &mut [u8]) -> usize
    requires { (longest_fixed ≤ length reply.old) × (well_formed block.old ≡ true) }
    ensures { Answers (line_answer line.now block.old (length reply.old)) reply.old block.new reply.new result }
{
    match reader::read(line, Block::known(block)) {
        Line::Refused(refusal) => write_refusal(reply, refusal),
        Line::Asked(request) => answer_request(line, block, reply, request),
    }
}

// Does what a request asks, where there is room for its reply.
// What fills arrays is not inlined: else the arrays of all kinds would stand in this frame, for a line of any kind.
#[tactic(auto, unfolding(crate::specs::Answer::requested))]
fn answer_request(line: &[u8], block: &mut Places, reply: &mut [u8], q: Request) -> usize
    requires { Asks line.now block.old q (length reply.old) }
    ensures { Answers (fitted (length reply.old) block.old (requested q line.now block.old)) reply.old block.new reply.new result }
{
    match q {
        Request::Load(p) => load_line::answer_load(line, block, reply, p),
        Request::Add(p) => add_line::answer_add(block, reply, p),
        Request::Shift(p) => shift_line::answer_shift(line, block, reply, p),
        Request::Tighten => tighten_line::answer_tighten(block, reply),
        Request::Certify(p) => certify_line::answer_certify(line, block, reply, p),
        Request::Search(p) => search_line::answer_search(HeldStudy::known(block), reply, p),
        Request::Save => save_line::answer_save(HeldStudy::known(block), reply),
        Request::Round => round_line::answer_round(block, reply),
        Request::Clauses(p) => clauses_line::answer_clauses(line, block, reply, p),
        Request::Explain(p) => explain_line::answer_explain(HeldStudy::known(block), reply, p),
        Request::Order(p) => order_line::answer_order(line, block, reply, p),
        Request::Screen(p) => record_lines::answer_screen(line, reply, p),
        Request::Planner(p) => record_lines::answer_planner(
            line,
            HeldStudy::known(block),
            reply,
            p,
        ),
        Request::Record(p) => record_lines::answer_record(line, HeldStudy::known(block), reply, p),
        Request::Dearest(p) => dearest_line::answer_dearest(line, reply, p),
    }
}
