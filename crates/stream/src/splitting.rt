// Splits an input that comes in parts into lines, and answers each line as soon as it is complete.
ghost use Rattle.std.specs.Prelude.{◌≡◌, length};
ghost use Rattle.requests.specs.Wrote.{Answers};
ghost use Rattle.stream.specs.Parts.{line_length, lengthened, answer_line, next_line, last_answer};
ghost use Rattle.stream.specs.Steps.{Steps};

use arrayvec::ArrayVec;
use frames::frame::Frame;
use service::call;

pub const LINE_FEED: u8 = 10;

// The most that is kept of a line.
pub const KEPT: usize = Frame::CHARACTERS + 1;

// The longest reply and a line feed.
pub const REPLY: usize = Frame::CHARACTERS + 1;

// What a step came to: how many bytes of the part it took, and how many bytes are to be printed.
#[derive(Clone, Copy)]
pub struct Step {
    pub used: usize,
    pub written: usize,
}

// How many bytes stand before the first line feed; all, where there is none.
// The library's `position`, and the whole part where it finds none, under the name that the definition of a step has for it.
fn line_length(part: &[u8]) -> usize
    ensures { result ≡ line_length part.now }
{
    part.iter()
        .position(|c| *c == LINE_FEED)
        .unwrap_or(part.len())
}

// Puts the bytes of a part behind a line, as far as there is room.
// What fits is one front of the part, copied at once; an iterator would put it there byte by byte.
#[tactic(auto, using(crate::proofs::Steps::room_filled))]
fn keep(part: &[u8], line: &mut ArrayVec<u8, KEPT>)
    ensures { line.new.items ≡ lengthened line.old.items (length part.now) part.now }
{
    let count = part.len().min(line.remaining_capacity());
    line.try_extend_from_slice(&part[..count]).unwrap();
}

// Answers a line, and puts the reply and a line feed in front of `reply`. Returns how many bytes they are.
fn reply_line(line: &[u8], block: &mut [i64], reply: &mut [u8; REPLY]) -> usize
    ensures { Answers (answer_line line.now block.old) reply.old block.new reply.new result }
{
    let n = call::respond(line, block, reply);
    reply[n] = LINE_FEED;
    n + 1
}

// Answers a last line without a line end as `reply_line` does, unless it is empty.
pub fn last_line(line: &[u8], block: &mut [i64], reply: &mut [u8; REPLY]) -> usize
    ensures { Answers (last_answer line.now block.old) reply.old block.new reply.new result }
{
    if line.is_empty() {
        return 0;
    }
    reply_line(line, block, reply)
}

// Takes a part to its first line feed, or to its end, behind what is kept of a line.
// The count n is answered too, so that the front is cut here and not in `line_length`.
pub fn next_line(
    part: &[u8],
    line: &mut ArrayVec<u8, KEPT>,
    block: &mut [i64],
    reply: &mut [u8; REPLY],
) -> Step
    ensures { Steps (next_line line.old.items block.old part.now) reply.old line.new.items block.new reply.new result }
{
    let n = line_length(part);
    keep(&part[..n], line);
    if n == part.len() {
        return Step {
            used: n,
            written: 0,
        };
    }
    let written = reply_line(line, block, reply);
    line.clear();
    Step {
        used: n + 1,
        written,
    }
}
