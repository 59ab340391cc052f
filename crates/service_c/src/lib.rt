// The call under its plain name, for programs in other languages: a static library over the crate `service`.
#![tactic(auto)]

ghost use Rattle.requests.specs.Wrote.{Answers};
ghost use Rattle.service.specs.Answer.{answer};

use service::call;

// Answers a call, and returns how many characters the reply has.
#[unsafe(no_mangle)]
pub extern "C" fn junction_answer(line: &[u8], block: &mut [i64], reply: &mut [u8]) -> usize
    ensures { Answers (answer line.now block.old reply.old) reply.old block.new reply.new result }
{
    call::respond(line, block, reply)
}
