// Document 01, '05 certify', carried out and answered. It leaves the block.
ghost use Rattle.std.specs.Prelude.{◌≤◌, length};
ghost use Rattle.lines.specs.declared.request.Request.TheVariants.{Certify as certify_of};
ghost use Rattle.replies.specs.Replies.{longest_fixed};
ghost use Rattle.replies.specs.Wrote.{Wrote};
ghost use Rattle.requests.specs.Answer.{requested};
ghost use Rattle.requests.specs.Wrote.{Certifies};

use arrayvec::ArrayVec;
use certificates::certify;
use frames::runs;
use lines::request::{Certify, Load};
use replies::replies::{write_certify, write_refusal};
use tables::block::Places;
use tables::held_study::HeldStudy;

// The most weights of a certificate.
const WEIGHTS: usize = Load::CHOICE_COSTS + Load::ENTRIES;

// Judges a certificate.
#[tactic(auto, unfolding(crate::specs::Answer::requested))]
#[inline(never)]
pub fn answer_certify(line: &[u8], block: &Places, reply: &mut [u8], q: Certify) -> usize
    requires { (longest_fixed ≤ length reply.old) × Certifies line.now block.now q }
    ensures { Wrote reply.old (requested (certify_of q) line.now block.now).reply reply.new result }
{
    let mut weights: ArrayVec<u64, WEIGHTS> = ArrayVec::new();
    let run = q.weights;
    runs::decode(line, run.at, Certify::WEIGHT_WIDTH, run.count, &mut weights);
    match certify::certify(HeldStudy::known(block), q.full, weights.as_slice()) {
        Ok(ceiling) => write_certify(reply, q.full, ceiling),
        Err(refusal) => write_refusal(reply, refusal),
    }
}
