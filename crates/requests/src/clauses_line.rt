// Document 02, change 7: a study written as clauses, carried out and answered.
ghost use Rattle.std.specs.Prelude.{◌≤◌, length};
ghost use Rattle.lines.specs.declared.request.Request.TheVariants.{Clauses as clauses_request};
ghost use Rattle.replies.specs.Replies.{longest_fixed};
ghost use Rattle.requests.specs.Answer.{requested};
ghost use Rattle.requests.specs.Wrote.{Answers, LoadsClauses};

use crate::outcome::write_outcome;
use arrayvec::ArrayVec;
use clauses::loads;
use frames::frame::Frame;
use lines::kind::Kind;
use lines::request::Clauses;
use tables::block::Places;

// Loads a study written as clauses.
#[tactic(auto, unfolding(crate::specs::Answer::requested), using(clauses::proofs::Block::clauses_study))]
#[inline(never)]
pub fn answer_clauses(line: &[u8], block: &mut Places, reply: &mut [u8], q: Clauses) -> usize
    requires { (longest_fixed ≤ length reply.old) × LoadsClauses line.now q }
    ensures { Answers (requested (clauses_request q) line.now block.old) reply.old block.new reply.new result }
{
    let mut clauses = ArrayVec::new();
    decoding::decode_clauses_in(Frame::known(line), &mut clauses);
    let outcome = loads::load_clauses(block, q.trains, q.scale, clauses.as_slice());
    write_outcome(reply, Kind::Clauses, outcome, block)
}
