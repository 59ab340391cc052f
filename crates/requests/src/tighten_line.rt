// Document 01, '04 tighten', carried out and answered.
ghost use Rattle.std.specs.Prelude.{◌≤◌, length};
ghost use Rattle.tables.specs.WellFormed.{Study};
ghost use Rattle.rewriting.specs.Judged.{kept};
ghost use Rattle.tighten.specs.Tighten.{tightened, tighten_outcome};
ghost use Rattle.lines.specs.declared.kind.Kind.TheVariants.{Tighten as tighten_kind};
ghost use Rattle.replies.specs.Replies.{longest_fixed};
ghost use Rattle.requests.specs.Answer.{operated};
ghost use Rattle.requests.specs.Wrote.{Answers};

use crate::outcome::write_outcome;
use lines::kind::Kind;
use tables::block::Places;

// Tightens the held costs. The round is as short: one function over the operation would take a longer contract than both.
#[tactic(auto, using(crate::proofs::Ready::tightened_study))]
#[inline(never)]
pub fn answer_tighten(block: &mut Places, reply: &mut [u8]) -> usize
    requires { (longest_fixed ≤ length reply.old) × Study block.old }
    ensures { Answers (operated tighten_kind (tighten_outcome block.old) block.old (kept block.old (tightened block.old))) reply.old block.new reply.new result }
{
    let outcome = tighten::tighten(block);
    write_outcome(reply, Kind::Tighten, outcome, block)
}
