// Document 01, '02 add', carried out and answered.
ghost use Rattle.std.specs.Prelude.{◌≤◌, length};
ghost use Rattle.units.specs.Units.{number_of_points};
ghost use Rattle.operations.specs.Add.{added, add_outcome};
ghost use Rattle.lines.specs.declared.kind.Kind.TheVariants.{Add as add_kind};
ghost use Rattle.replies.specs.Replies.{longest_fixed};
ghost use Rattle.requests.specs.Answer.{operated};
ghost use Rattle.requests.specs.Wrote.{Answers, Adds};

use crate::outcome::write_outcome;
use lines::kind::Kind;
use lines::request::Add;
use operations::add;
use tables::block::Places;

// Adds points to a choice.
#[tactic(auto, using(operations::proofs::Added::add_study))]
pub fn answer_add(block: &mut Places, reply: &mut [u8], q: Add) -> usize
    requires { (longest_fixed ≤ length reply.old) × Adds block.old q }
    ensures { Answers (operated add_kind (add_outcome q.train q.choice (number_of_points q.points) block.old) block.old (added q.train q.choice (number_of_points q.points) block.old)) reply.old block.new reply.new result }
{
    let outcome = add::add(block, q.train, q.choice, q.points);
    write_outcome(reply, Kind::Add, outcome, block)
}
