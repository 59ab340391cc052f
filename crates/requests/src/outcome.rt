// Document 01, 'Replies': the reply to an operation, by its outcome.
ghost use Rattle.std.specs.Prelude.{◌≡◌, ◌≤◌, length};
ghost use Rattle.refusals.specs.Verdicts.{Fine};
ghost use Rattle.tables.specs.WellFormed.{Study};
ghost use Rattle.replies.specs.Replies.{longest_fixed};
ghost use Rattle.replies.specs.Wrote.{Wrote};
ghost use Rattle.requests.specs.Answer.{operated};

use lines::kind::Kind;
use refusals::Verdict;
use replies::replies::{write_bound, write_refusal};
use tables::block::Places;
use tables::held_study::HeldStudy;

// Writes the reply to an operation of this kind, by its outcome and the block afterwards: a study where the operation was done.
pub fn write_outcome(reply: &mut [u8], kind: Kind, outcome: Verdict, block: &Places) -> usize
    requires { (longest_fixed ≤ length reply.old) × ((outcome ≡ Fine) → Study block.now) }
    ensures { Wrote reply.old (operated kind outcome block.now block.now).reply reply.new result }
{
    match outcome {
        Ok(()) => write_bound(reply, kind, HeldStudy::known(block)),
        Err(refusal) => write_refusal(reply, refusal),
    }
}
