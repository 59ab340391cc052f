// The call: a line, a block and a reply buffer in; the block afterwards and the written front of the buffer out.
ghost use Rattle.std.specs.Prelude.{◌≡◌};
ghost use Rattle.requests.specs.Wrote.{Answers};
ghost use Rattle.service.specs.Answer.{answer};

use radio::answer;
use refusals::Refusal;
use replies::replies::write_refusal;
use tables::block::Block;

// The smallest reply buffer, in characters.
pub const MIN_BUFFER: usize = 74;

// Answers a call, and returns how many characters the reply has.
#[tactic(auto, unfolding(crate::specs::Answer::answer), using(tables::proofs::Study::other_length, replies::proofs::Writing::wrote_none))]
pub fn respond(line: &[u8], block: &mut [i64], reply: &mut [u8]) -> usize
    ensures { Answers (answer line.now block.old reply.old) reply.old block.new reply.new result }
{
    if reply.len() < MIN_BUFFER {
        return 0;
    }
    if Block::new(block).is_none() {
        return write_refusal(reply, Refusal::Malformed);
    }
    answer::answer_form(line, block.as_mut_array().unwrap(), reply)
}

// Answers a call, and hands back the written front of the reply buffer.
// The part of the buffer is the result that document 01's Forms ask for.
pub fn answer<'a>(line: &[u8], block: &mut [i64], reply: &'a mut [u8]) -> &'a mut [u8]
    ensures result_value { result.now ≡ (answer line.now block.old reply.old).reply }
    ensures block_after { block.new ≡ (answer line.now block.old reply.old).block }
    ensures same_buffer { result.ref_ptr ≡ reply.entry.ref_ptr }
{
    let n = respond(line, block, reply);
    &mut reply[..n]
}
