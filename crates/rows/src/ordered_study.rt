// A study with its trains in an order: 'The walk opens trains in that order'. It stands for the fact that the order has each train once.
ghost use Rattle.std.specs.Prelude.{◌≡◌, ℕ, ◌<◌, ◌≤◌};
ghost use Rattle.theory.specs.Lists.{nth};
ghost use Rattle.theory.specs.Order.{IsOrder, rank};
ghost use Rattle.tables.specs.Block.{max_trains, trains, pairs, size};
ghost use Rattle.tables.specs.Plans.{shape_of};
ghost use Rattle.orders.specs.Ordered.{place_of, turned, earlier, later, by_train};

use tables::block;
use tables::block::Block;
use tables::held_study::HeldStudy;

// Which train is tried at each place.
pub type Order = [usize; Block::TRAINS];

#[derive(Drop)]
pub struct OrderedStudy<'a> {
    pub study: HeldStudy<'a>,
    pub order: Order,
    // At which place each train is tried.
    pub places: [usize; Block::TRAINS],
    ghost once: { IsOrder (trains study.numbers.now) (nth order) },
    ghost placed: { (t : ℕ) → t < trains study.numbers.now → nth places t ≡ rank (trains study.numbers.now) (nth order) t },
}

// The place of each train, in an order of the first n.
fn places_in(order: &Order, n: usize) -> [usize; Block::TRAINS]
    requires { (n ≤ max_trains) × IsOrder n (nth order.now) }
    ensures { (t : ℕ) → t < n → nth result t ≡ rank n (nth order.now) t }
{
    let mut places = [0; Block::TRAINS];
    for d in 0..n {
        places[order[d]] = d;
    }
    places
}

impl<'a> OrderedStudy<'a> {
    // The study with its trains in this order.
    #[tactic(auto, using(tables::proofs::Study::trains_range))]
    pub(crate) fn new(study: HeldStudy<'a>, order: &Order) -> OrderedStudy<'a>
        requires { IsOrder (trains study.numbers.now) (nth order.now) }
        ensures study { result.study.numbers.now ≡ study.entry.numbers.now }
        ensures order { result.order ≡ order.now }
    {
        OrderedStudy {
            study,
            order: *order,
            places: places_in(order, block::trains(study.numbers)),
        }
    }

    // The place of train t.
    #[tactic(auto, using(tables::proofs::Study::trains_range, crate::proofs::Placing::place_below))]
    fn place(&self, t: usize) -> usize
        requires { t < trains self.now.study.numbers.now }
        ensures value { result ≡ place_of (nth self.now.order) (shape_of self.now.study.numbers.now) t }
        ensures bound { result < trains self.now.study.numbers.now }
    {
        self.places[t]
    }

    // How many choices the train at place d has.
    #[tactic(auto, using(tables::proofs::Study::trains_range, crate::proofs::Placing::train_below))]
    pub(crate) fn size(&self, d: usize) -> usize
        requires { d < trains self.now.study.numbers.now }
        ensures { result ≡ size self.now.study.numbers.now (nth self.now.order d) }
    {
        block::size(self.study.numbers, self.order[d])
    }

    // Whether pair k's second train comes first.
    #[tactic(auto, using(tables::proofs::Study::shape_ranges))]
    pub(crate) fn is_turned(&self, k: usize) -> bool
        requires { k < pairs self.now.study.numbers.now }
        ensures { result ≡ turned (nth self.now.order) (shape_of self.now.study.numbers.now) k }
    {
        let pair = block::trains_of(self.study.numbers, k);
        self.place(pair.second) < self.place(pair.first)
    }

    // The place of pair k's earlier train.
    #[tactic(auto, using(tables::proofs::Study::shape_ranges))]
    pub(crate) fn earlier(&self, k: usize) -> usize
        requires { k < pairs self.now.study.numbers.now }
        ensures value { result ≡ earlier (nth self.now.order) (shape_of self.now.study.numbers.now) k }
        ensures bound { result < trains self.now.study.numbers.now }
    {
        let pair = block::trains_of(self.study.numbers, k);
        if self.is_turned(k) {
            self.place(pair.second)
        } else {
            self.place(pair.first)
        }
    }

    // The place of its later train.
    #[tactic(auto, using(tables::proofs::Study::shape_ranges))]
    pub(crate) fn later(&self, k: usize) -> usize
        requires { k < pairs self.now.study.numbers.now }
        ensures value { result ≡ later (nth self.now.order) (shape_of self.now.study.numbers.now) k }
        ensures bound { result < trains self.now.study.numbers.now }
    {
        let pair = block::trains_of(self.study.numbers, k);
        if self.is_turned(k) {
            self.place(pair.first)
        } else {
            self.place(pair.second)
        }
    }

    // A list of choices by places, by trains: 'replies still list choices by train number'. What stands past the last place stays.
    #[tactic(auto, using(tables::proofs::Study::trains_range, crate::proofs::Placing::train_below))]
    pub fn by_train(&self, choices: &[u8; Block::TRAINS]) -> [u8; Block::TRAINS]
        ensures { result ≡ by_train (trains self.now.study.numbers.now) (nth self.now.order) choices.now }
    {
        let mut by_train = *choices;
        for d in 0..block::trains(self.study.numbers) {
            by_train[self.order[d]] = choices[d];
        }
        by_train
    }
}
