// Document 02, change 10, 'Kind 0B': n train numbers.
ghost use Rattle.std.specs.Prelude.{◌≡◌, ◌*◌, ◌≤◌, length};
ghost use Rattle.tables.specs.Block.{max_trains};
ghost use Rattle.theory.specs.Order.{each_once};
ghost use Rattle.lines.specs.declared.kind.Kind.TheVariants as kind;
ghost use Rattle.lines.specs.Layout.{order_field, further, order_train};
ghost use Rattle.kinds.specs.Lines.{fields_asked};

use arrayvec::ArrayVec;
use frames::frame::Frame;
use frames::runs;
use lines::field::{Field, Rule};
use lines::kind::Kind;
use lines::request::{FieldRun, Order, Request};
use lines::verdict;
use refusals::Refusal;
use tables::block::Block;
use tables::held_study::HeldStudy;
use tables::{block, orders};

// The first train: any number of its width, judged with the others.
const TRAIN: Field = Field {
    at: Kind::WIDTH,
    width: Field::COUNT_WIDTH,
    rule: Rule::Any,
    refusal: Refusal::Fields,
};

// An order of the trains.
#[tactic(auto, using(tables::proofs::Study::trains_range), unfolding(crate::specs::Lines::order_verdict))]
pub fn read_order(frame: Frame<'_>, study: HeldStudy<'_>) -> Result<Request, Refusal>
    ensures { result ≡ fields_asked kind.Order frame.entry.line.now study.entry.numbers.now }
{
    let n = block::trains(study.numbers);
    verdict::end_verdict(frame.bytes(), TRAIN.further(n).at)?;
    if !each_once(frame.line, n) {
        return Err(Refusal::Order);
    }
    Ok(Request::Order(Order {
        trains: FieldRun {
            at: TRAIN.at,
            count: n,
        },
    }))
}

// Whether the line gives each of n trains exactly once.
fn each_once(line: &[u8], n: usize) -> bool
    requires { (2 * (further order_field n).at ≤ length line.now) × (n ≤ max_trains) }
    ensures { result ≡ each_once n (order_train line.now) }
{
    let mut trains: ArrayVec<u64, { Block::TRAINS }> = ArrayVec::new();
    runs::decode(line, TRAIN.at, TRAIN.width, n, &mut trains);
    orders::each_once(trains.as_slice())
}
