// Document 02, change 13: the dearest study of given sizes, carried out and answered. It leaves the block.
ghost use Rattle.std.specs.Prelude.{List, ◌≤◌, ℤ, length};
ghost use Rattle.replies.specs.Replies.{longest_fixed};
ghost use Rattle.replies.specs.Wrote.{Wrote};
ghost use Rattle.requests.specs.Answer.{choices_in, dearest_given, fitted};
ghost use Rattle.requests.specs.Wrote.{SizesThere};

use crate::record_lines::choices_in;
use lines::request::Dearest;
use operations::given_study::GivenStudy;
use refusals::Refusal;
use replies::replies::write_refusal;
use saving::write::{line_length, write_load};

// Answers with the line that loads the dearest study of these sizes, where its search tries no more choices than may be and there is room for it. The block is not read: equal sizes get equal lines.
#[tactic(auto, using(theory::proofs::Lists::list_length, replies::proofs::Writing::wrote_none, crate::proofs::Ready::sizes_there, crate::proofs::Dearest::late_given, crate::proofs::Dearest::dearest_costs_most, crate::proofs::Dearest::dearest_length))]
#[inline(never)]
pub fn answer_dearest(line: &[u8], reply: &mut [u8], q: Dearest) -> usize
    requires { (longest_fixed ≤ length reply.old) × SizesThere line.now q.sizes }
    ensures { (b : List ℤ) → Wrote reply.old (fitted (length reply.old) b (dearest_given (choices_in line.now q.sizes) b)).reply reply.new result }
{
    let sizes = choices_in(line, q.sizes);
    if !dearest::tries_within(&sizes) {
        return write_refusal(reply, Refusal::Tries);
    }
    let numbers = dearest::dearest(sizes);
    if reply.len() < line_length(q.sizes.count, numbers.choices.len(), 0, 0) {
        return 0;
    }
    write_load(reply, GivenStudy::known(&numbers))
}
