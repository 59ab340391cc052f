// Document 02, change 14: the answer to a line in either form.
ghost use Rattle.std.specs.Prelude.{◌≡◌, true, ◌+◌, ◌*◌, ◌≤◌, length};
ghost use Rattle.tables.specs.WellFormed.{well_formed};
ghost use Rattle.replies.specs.Replies.{longest_fixed};
ghost use Rattle.requests.specs.Wrote.{Answers};
ghost use Rattle.frames.specs.Frames.{max_characters};
ghost use Rattle.requests.specs.Answer.{line_answer};
ghost use Rattle.radio.specs.Forms.{sum_width, is_radio, plain_line};
ghost use Rattle.radio.specs.Answer.{plain_answer, radio_answer, form_answer};

use crate::form;
use frames::byte_sum;
use frames::frame::Frame;
use refusals::Refusal;
use replies::replies::write_refusal;
use requests::line;
use tables::block::Places;

// Answers a line as its plain form. That is a copy, so that the reader needs to know of one form only. It is not inlined: a plain line has no copy on its stack.
#[inline(never)]
fn answer_copy(line: &[u8], block: &mut Places, reply: &mut [u8]) -> usize
    requires { (4 ≤ length line.now) × (length line.now ≤ max_characters) × (longest_fixed ≤ length reply.old) × (well_formed block.old ≡ true) }
    ensures { Answers (line_answer (plain_line line.now) block.old (length reply.old)) reply.old block.new reply.new result }
{
    let mut plain = [0; Frame::CHARACTERS];
    let plain = &mut plain[..line.len() - form::SUM];
    form::write_plain(line, plain);
    line::answer_line(plain, block, reply)
}

// Answers a second form as its plain form, or with 25 where its sum is wrong. The reply is a plain one.
#[tactic(auto, using(crate::proofs::Forms::right_long, crate::proofs::Writing::second_short))]
fn answer_plain(line: &[u8], block: &mut Places, reply: &mut [u8]) -> usize
    requires { (is_radio line.now ≡ true) × (longest_fixed ≤ length reply.old) × (well_formed block.old ≡ true) }
    ensures { Answers (plain_answer line.now block.old (length reply.old)) reply.old block.new reply.new result }
{
    if byte_sum::byte_sum(line) == 0 {
        answer_copy(line, block, reply)
    } else {
        write_refusal(reply, Refusal::WrongSum)
    }
}

// Answers a second form, and puts the reply into the second form too.
#[tactic(auto, unfolding(crate::specs::Answer::radio_answer))]
fn answer_radio(line: &[u8], block: &mut Places, reply: &mut [u8]) -> usize
    requires { (is_radio line.now ≡ true) × (longest_fixed + 2 * sum_width ≤ length reply.old) × (well_formed block.old ≡ true) }
    ensures { Answers (radio_answer line.now block.old (length reply.old)) reply.old block.new reply.new result }
{
    let room = reply.len() - form::SUM;
    let n = answer_plain(line, block, &mut reply[..room]);
    form::write_radio(reply, n)
}

// Answers a line in either form.
#[tactic(auto, unfolding(crate::specs::Answer::form_answer))]
pub fn answer_form(line: &[u8], block: &mut Places, reply: &mut [u8]) -> usize
    requires { (longest_fixed + 2 * sum_width ≤ length reply.old) × (well_formed block.old ≡ true) }
    ensures { Answers (form_answer line.now block.old (length reply.old)) reply.old block.new reply.new result }
{
    if form::is_radio(line) {
        answer_radio(line, block, reply)
    } else {
        line::answer_line(line, block, reply)
    }
}
