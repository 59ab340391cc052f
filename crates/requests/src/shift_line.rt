// Document 01, '03 shift', carried out and answered.
ghost use Rattle.std.specs.Prelude.{◌≤◌, length};
ghost use Rattle.lines.specs.declared.request.Request.TheVariants.{Shift as shift_of};
ghost use Rattle.replies.specs.Replies.{longest_fixed};
ghost use Rattle.requests.specs.Answer.{requested};
ghost use Rattle.requests.specs.Wrote.{Answers, Shifts};

use crate::outcome::write_outcome;
use arrayvec::ArrayVec;
use frames::runs;
use lines::kind::Kind;
use lines::request::Shift;
use shift::amounts::Amounts;
use tables::block::{Block, Places};

// The most moves of a shift.
const MOVES: usize = Block::PAIRS * (Block::CHOICES + Block::CHOICES);

// Shifts the held costs.
#[tactic(auto, unfolding(crate::specs::Answer::requested), using(theory::proofs::Lists::list_length, crate::proofs::Ready::shifted_study))]
#[inline(never)]
pub fn answer_shift(line: &[u8], block: &mut Places, reply: &mut [u8], q: Shift) -> usize
    requires { (longest_fixed ≤ length reply.old) × Shifts line.now block.old q }
    ensures { Answers (requested (shift_of q) line.now block.old) reply.old block.new reply.new result }
{
    let mut lifts: ArrayVec<i64, { Block::TRAINS }> = ArrayVec::new();
    let mut moves: ArrayVec<i64, MOVES> = ArrayVec::new();
    runs::decode_signed(
        line,
        q.lifts.at,
        Shift::MOVE_WIDTH,
        q.lifts.count,
        &mut lifts,
    );
    runs::decode_signed(
        line,
        q.moves.at,
        Shift::MOVE_WIDTH,
        q.moves.count,
        &mut moves,
    );
    let outcome = shift::shift(
        block,
        Amounts::known(lifts.as_slice()),
        Amounts::known(moves.as_slice()),
    );
    write_outcome(reply, Kind::Shift, outcome, block)
}
