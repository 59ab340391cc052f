// How the end of an operation is judged.
ghost use Rattle.std.specs.Prelude.{◌≡◌, List, ℤ};
ghost use Rattle.std.specs.Fn.{FnOnceTakesAtMut, FnOnceReturnsAtMut};
ghost use Rattle.rewriting.specs.Judged.{kept_number, kept, judged, judged_block};

use refusals::{Refusal, Verdict};
use tables::block::{Block, Places};
use tables::well_formed;

// The new number, or the old one where that is below 0.
// It goes by the sign of the old number alone, so that neither `max` nor `min` says it.
fn kept_number(old: i64, new: i64) -> i64
    ensures { result ≡ kept_number old new }
{
    if old < 0 { old } else { new }
}

// Puts the old number back wherever it is below 0. Every place is stored, so that several places can be written at once.
#[tactic(auto, using(crate::proofs::PutBack::turn_back), unfolding(crate::specs::Judged::kept))]
fn put_back(end: &mut Places, old: &Places)
    ensures { end.new ≡ kept old.now end.old }
{
    for p in 0..Block::LENGTH {
        end[p] = kept_number(old[p], end[p]);
    }
}

// Puts the end of an operation, with what is forbidden put back, in the place of the block, where it is within the limits.
fn settle(block: &mut Places, end: &mut Places) -> Verdict
    ensures { (result ≡ judged block.old end.old) × (block.new ≡ judged_block block.old end.old) }
{
    put_back(end, block);
    if !well_formed::holds_study(end) {
        return Err(Refusal::PartsOutside);
    }
    *block = *end;
    Ok(())
}

// Makes an operation on a copy of the block, and settles its end.
pub fn attempt<F: FnOnce(&mut Places)>(block: &mut Places, edit: F) -> Verdict
    requires { FnOnceTakesAtMut F.FnOnce edit block.old }
    ensures { (end : List ℤ) × FnOnceReturnsAtMut F.FnOnce edit block.old tt end × (result ≡ judged block.old end) × (block.new ≡ judged_block block.old end) }
{
    let mut end = *block;
    edit(&mut end);
    settle(block, &mut end)
}
