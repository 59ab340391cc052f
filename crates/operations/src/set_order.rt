// Document 02, change 10: 'Kind 0B gives n train numbers'.
ghost use Rattle.std.specs.Prelude.{◌≡◌, ◌≤◌, true, length};
ghost use Rattle.theory.specs.Lists.{nth};
ghost use Rattle.theory.specs.Order.{each_once};
ghost use Rattle.tables.specs.Block.{max_trains};
ghost use Rattle.operations.specs.Order.{ordered_block};

use tables::block;
use tables::block::Places;

// Stores the order in which the trains are tried: a list that has each of them exactly once. The list is asked for that in this one call.
pub fn set_order(b: &mut Places, order: &[u64])
    requires { (length order.now ≤ max_trains) × (each_once (length order.now) (nth order.now) ≡ true) }
    ensures { b.new ≡ ordered_block order.now b.old }
{
    for d in 0..order.len() {
        block::put_order(b, d, order[d] as usize);
    }
}
