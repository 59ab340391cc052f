// The program: reads standard input, starts fresh, and prints a reply line for each input line as soon as the line is complete.
#![tactic(auto)]

ghost use Rattle.std.specs.Prelude.{◌≡◌, ◌≤◌, unwrap_or, length, take};
ghost use Rattle.std.specs.ControlFlow.{ForContinue};
ghost use Rattle.stream.specs.Parts.{over_part, last_answer};
ghost use Rattle.stream.specs.Steps.{Leaves, AfterParts, StepPrints, EndPrints};

use arrayvec::ArrayVec;
use std::io::Read;
use std::ops::ControlFlow;
use stream::splitting;
use stream::splitting::{KEPT, REPLY};
use tables::block::Block;

// A proved loop has to end, and nothing says that an input does: a number of reads that no run comes to.
const READS: u64 = 9223372036854775808;

// How many bytes a read asks for.
const INPUT: usize = 65536;

// The files that `print` writes to.
const STDOUT: i32 = 1;

const STDERR: i32 = 2;

// Reads from standard input, and does nothing else: the bytes go to the front of the array, and it answers how many, 0 at the end of the input, nothing where the read fails.
fn read(rt: &HostRuntime, bytes: &mut [u8; INPUT]) -> Option<usize> {
    rt.stdin().read(bytes).ok()
}

// Writes to standard output. It goes on unless that fails, and then says so on standard error.
fn print(reply: &[u8]) -> ControlFlow<()> {
    if io::write_all(STDOUT, reply) {
        return ControlFlow::Continue(());
    }
    io::write_all(
        STDERR,
        b"junction: a reply could not be written, and no further line is answered\n",
    );
    ControlFlow::Break(())
}

// Writes the first n characters of `reply`, which a step on a part prints, to standard output, and does nothing else. Part and block stand here for the contract alone.
// The array keeps its length and a step answers a count, as there is no heap: the front is cut here, behind the clause that bounds it.
fn print_step(part: &[u8], block: &[i64; Block::LENGTH], reply: &[u8], n: usize) -> ControlFlow<()>
    requires { (n ≤ length reply.now) × StepPrints part.now block.now (take n reply.now) }
{
    print(&reply[..n])
}

// The same at the end of the input, where `line` is kept of the last line.
// A function of its own: the two differ in what they ask, and one for both would take the predicate as an argument of its contract.
fn print_end(line: &[u8], block: &[i64; Block::LENGTH], reply: &[u8], n: usize) -> ControlFlow<()>
    requires { (n ≤ length reply.now) × EndPrints line.now block.now (take n reply.now) }
{
    print(&reply[..n])
}

// Answers the lines that end in a part, each with one write. It goes on unless a write fails.
// `AfterParts` is of a line and a block that both change with each step: a struct around them would be made anew after each.
fn answer_part(
    part: &[u8],
    line: &mut ArrayVec<u8, KEPT>,
    block: &mut [i64; Block::LENGTH],
    reply: &mut [u8; REPLY],
) -> ControlFlow<()>
    requires { AfterParts line.old.items block.old }
    ensures { ForContinue result (λ _. Leaves (over_part line.old.items block.old part.now) line.new.items block.new) }
{
    let mut rest = part;
    // A step says how much it took, so that no `for` goes over the part.
    while !rest.is_empty() {
        let step = splitting::next_line(rest, line, block, reply);
        print_step(rest, block, reply, step.written)?;
        rest = &rest[step.used..];
    }
    ControlFlow::Continue(())
}

// At the end of the input: 'A last line without a line end is a line too, unless empty.'
fn answer_last(line: &ArrayVec<u8, KEPT>, block: &mut [i64; Block::LENGTH], reply: &mut [u8; REPLY])
    requires { AfterParts line.now.items block.old }
    ensures { block.new ≡ (last_answer line.now.items block.old).block }
{
    let kept = line.as_slice();
    let n = splitting::last_line(kept, block, reply);
    print_end(kept, block, reply, n);
}

// After a read that answered `got`: answers what came, at the end of the input the last line. It goes on unless the input has ended, or a read or a write failed.
fn answer_read(
    got: Option<usize>,
    bytes: &[u8; INPUT],
    line: &mut ArrayVec<u8, KEPT>,
    block: &mut [i64; Block::LENGTH],
    reply: &mut [u8; REPLY],
) -> ControlFlow<()>
    requires { AfterParts line.old.items block.old }
    ensures leaves { ForContinue result (λ _. Leaves (over_part line.old.items block.old (take (unwrap_or got 0) bytes.now)) line.new.items block.new) }
    ensures block_after { got ≡ Some 0 → block.new ≡ (last_answer line.old.items block.old).block }
{
    match got {
        None => ControlFlow::Break(()),
        Some(0) => {
            answer_last(line, block, reply);
            ControlFlow::Break(())
        }
        // A read fills the front of an array of fixed length, as there is no heap, and answers how many bytes.
        Some(n) => answer_part(&bytes[..n.min(INPUT)], line, block, reply),
    }
}

fn main(rt: HostRuntime) {
    let mut bytes = [0u8; INPUT];
    let mut line = ArrayVec::new();
    let mut block = [0i64; Block::LENGTH];
    let mut reply = [0u8; REPLY];
    for _ in 0..READS {
        let got = read(&rt, &mut bytes);
        if answer_read(got, &bytes, &mut line, &mut block, &mut reply).is_break() {
            return;
        }
    }
}
