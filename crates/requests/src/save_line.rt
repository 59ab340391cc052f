// Document 02, change 1: a save, carried out and answered. It leaves the block.
ghost use Rattle.std.specs.Prelude.{length};
ghost use Rattle.replies.specs.Wrote.{Wrote};
ghost use Rattle.requests.specs.Answer.{saved, fitted};

use saving::save;
use tables::held_study::HeldStudy;

// Saves the study that is held. A line that is longer than the buffer is not begun.
#[inline(never)]
pub fn answer_save(study: HeldStudy<'_>, reply: &mut [u8]) -> usize
    ensures { Wrote reply.old (fitted (length reply.old) study.entry.numbers.now (saved study.entry.numbers.now)).reply reply.new result }
{
    if reply.len() < save::saved_length(study) {
        return 0;
    }
    save::save(study, reply)
}
