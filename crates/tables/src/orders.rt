// Document 02, change 10: 'each train exactly once'.
ghost use Rattle.std.specs.Prelude.{◌≡◌, ◌≤◌, length};
ghost use Rattle.theory.specs.Lists.{nth};
ghost use Rattle.theory.specs.Order.{each_once};
ghost use Rattle.tables.specs.Block.{max_trains};

use crate::block::Block;

// Whether a list has each number below its length exactly once: the places of each are counted.
pub fn each_once(order: &[u64]) -> bool
    requires { length order.now ≤ max_trains }
    ensures { result ≡ each_once (length order.now) (nth order.now) }
{
    let n = order.len();
    let mut times = [0u8; Block::TRAINS];
    for d in 0..n {
        let t = order[d] as usize;
        if t >= n {
            return false;
        }
        times[t] += 1;
    }
    times[..n].iter().all(|k| *k == 1)
}
