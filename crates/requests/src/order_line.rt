// Document 02, change 10: the order of the trains, carried out and answered.
ghost use Rattle.std.specs.Prelude.{◌≤◌, length};
ghost use Rattle.lines.specs.declared.request.Request.TheVariants.{Order as order_of};
ghost use Rattle.replies.specs.Replies.{longest_fixed};
ghost use Rattle.requests.specs.Answer.{requested};
ghost use Rattle.requests.specs.Wrote.{Answers, Orders};

use arrayvec::ArrayVec;
use frames::runs;
use lines::field::Field;
use lines::request::Order;
use operations::set_order;
use replies::replies::write_order;
use tables::block::{Block, Places};

// Stores the order in which trains are tried.
#[tactic(auto, unfolding(crate::specs::Answer::requested), using(theory::proofs::Lists::list_length, tables::proofs::Study::trains_range))]
pub fn answer_order(line: &[u8], block: &mut Places, reply: &mut [u8], q: Order) -> usize
    requires { (longest_fixed ≤ length reply.old) × Orders line.now block.old q }
    ensures { Answers (requested (order_of q) line.now block.old) reply.old block.new reply.new result }
{
    let mut trains: ArrayVec<u64, { Block::TRAINS }> = ArrayVec::new();
    let run = q.trains;
    runs::decode(line, run.at, Field::COUNT_WIDTH, run.count, &mut trains);
    set_order::set_order(block, trains.as_slice());
    write_order(reply, trains.as_slice())
}
