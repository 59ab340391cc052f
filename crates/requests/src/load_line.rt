// Document 01, '01 load', carried out and answered.
ghost use Rattle.std.specs.Prelude.{◌≤◌, length};
ghost use Rattle.lines.specs.declared.request.Request.TheVariants.{Load as load_of};
ghost use Rattle.replies.specs.Replies.{longest_fixed};
ghost use Rattle.requests.specs.Answer.{requested};
ghost use Rattle.requests.specs.Wrote.{Answers, Loads};

use frames::frame::Frame;
use lines::kind::Kind;
use lines::request::Load;
use operations::given_study::GivenStudy;
use operations::load;
use operations::load_numbers::LoadNumbers;
use replies::replies::write_bound;
use tables::block::Places;
use tables::held_study::HeldStudy;

// Loads a study.
#[tactic(auto, unfolding(crate::specs::Answer::requested), using(operations::proofs::Loaded::load_study))]
#[inline(never)]
pub fn answer_load(line: &[u8], block: &mut Places, reply: &mut [u8], q: Load) -> usize
    requires { (longest_fixed ≤ length reply.old) × Loads line.now q }
    ensures { Answers (requested (load_of q) line.now block.old) reply.old block.new reply.new result }
{
    let mut numbers = LoadNumbers::new(q.scale);
    decoding::decode_load_in(Frame::known(line), q, &mut numbers);
    load::load(block, GivenStudy::known(&numbers));
    write_bound(reply, Kind::Load, HeldStudy::known(block))
}
