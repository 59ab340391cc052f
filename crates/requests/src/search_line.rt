// Document 01, '06 search', carried out and answered. It leaves the block.
ghost use Rattle.std.specs.Prelude.{◌≤◌, length};
ghost use Rattle.tables.specs.LineLimits.{max_budget};
ghost use Rattle.tables.specs.Block.{trains};
ghost use Rattle.search.specs.Answer.{search_answer};
ghost use Rattle.replies.specs.Replies.{search_reply, longest_fixed};
ghost use Rattle.replies.specs.Wrote.{Wrote};

use lines::request::Search;
use replies::replies::write_search;
use search::answer;
use tables::block;
use tables::held_study::HeldStudy;

// Searches for the best plan.
#[tactic(auto, using(tables::proofs::Study::trains_range))]
#[inline(never)]
pub fn answer_search(study: HeldStudy<'_>, reply: &mut [u8], q: Search) -> usize
    requires { (longest_fixed ≤ length reply.old) × (q.budget ≤ max_budget) }
    ensures { Wrote reply.old (search_reply (trains study.entry.numbers.now) (search_answer study.entry.numbers.now q.budget)) reply.new result }
{
    let found = answer::search(study, q.budget);
    write_search(reply, block::trains(study.numbers), found)
}
