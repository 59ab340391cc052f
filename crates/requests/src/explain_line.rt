// Document 02, change 8: why a choice is out, carried out and answered. It leaves the block.
ghost use Rattle.std.specs.Prelude.{◌≤◌, length};
ghost use Rattle.reasons.specs.Reasons.{reason_at};
ghost use Rattle.replies.specs.Replies.{reason_reply, longest_fixed};
ghost use Rattle.replies.specs.Wrote.{Wrote};
ghost use Rattle.units.specs.Units.{number_of_points};
ghost use Rattle.requests.specs.Wrote.{Explains};

use lines::request::Explain;
use replies::replies::write_reason;
use tables::held_study::HeldStudy;

// Says why a choice is out, if it is.
pub fn answer_explain(study: HeldStudy<'_>, reply: &mut [u8], q: Explain) -> usize
    requires { (longest_fixed ≤ length reply.old) × Explains study.numbers.now q }
    ensures { Wrote reply.old (reason_reply (reason_at study.entry.numbers.now q.train q.choice (number_of_points q.limit))) reply.new result }
{
    write_reason(reply, reasons::explain(study, q.train, q.choice, q.limit))
}
