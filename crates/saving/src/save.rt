// The saved line of the study that a block holds.
ghost use Rattle.std.specs.Prelude.{◌≡◌, ◌≤◌, length};
ghost use Rattle.operations.specs.Saved.{saved_numbers};
ghost use Rattle.lines.specs.Text.{load_digits};
ghost use Rattle.replies.specs.Wrote.{Wrote};

use crate::write;
use operations::given_study::GivenStudy;
use operations::load_numbers::LoadNumbers;
use tables::block;
use tables::held_study::HeldStudy;

// How many characters the saved line has.
pub fn saved_length(study: HeldStudy<'_>) -> usize
    ensures { result ≡ length (load_digits (saved_numbers study.entry.numbers.now)) }
{
    let n = block::trains(study.numbers);
    let choices = counts::choice_count(study);
    let m = block::pairs(study.numbers);
    let entries = counts::entry_count(study);
    write::line_length(n, choices, m, entries)
}

// Writes the saved line to the front of a buffer that holds it, and answers how many characters it has.
// The numbers are listed where they lie: returned by value, their lists would be cleared twice, and copied.
pub fn save(study: HeldStudy<'_>, reply: &mut [u8]) -> usize
    requires { length (load_digits (saved_numbers study.numbers.now)) ≤ length reply.old }
    ensures { Wrote reply.old (load_digits (saved_numbers study.entry.numbers.now)) reply.new result }
{
    let mut numbers = LoadNumbers::new(block::scale(study.numbers));
    numbers::list(study, &mut numbers);
    write::write_load(reply, GivenStudy::known(&numbers))
}
