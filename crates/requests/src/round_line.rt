// Document 02, change 4, 'Kind 08 .. is a directional round', carried out and answered.
ghost use Rattle.std.specs.Prelude.{◌≤◌, length};
ghost use Rattle.tables.specs.WellFormed.{Study};
ghost use Rattle.rewriting.specs.Judged.{kept};
ghost use Rattle.directional.specs.Directional.{directed, direct_outcome};
ghost use Rattle.lines.specs.declared.kind.Kind.TheVariants.{Round as round_kind};
ghost use Rattle.replies.specs.Replies.{longest_fixed};
ghost use Rattle.requests.specs.Answer.{operated};
ghost use Rattle.requests.specs.Wrote.{Answers};

use crate::outcome::write_outcome;
use lines::kind::Kind;
use tables::block::Places;

// Makes a directional round of the held costs.
#[tactic(auto, using(crate::proofs::Ready::directed_study))]
#[inline(never)]
pub fn answer_round(block: &mut Places, reply: &mut [u8]) -> usize
    requires { (longest_fixed ≤ length reply.old) × Study block.old }
    ensures { Answers (operated round_kind (direct_outcome block.old) block.old (kept block.old (directed block.old))) reply.old block.new reply.new result }
{
    let outcome = directional::direct(block);
    write_outcome(reply, Kind::Round, outcome, block)
}
