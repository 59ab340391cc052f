// Document 01, '01 load': the numbers of a study, as a load gives them. There is room for those of every study.
ghost use Rattle.std.specs.Prelude.{◌≡◌, []};
ghost use Rattle.tables.specs.Numbers.{numbers};
ghost use Rattle.operations.specs.Given.{numbers_given};

use arrayvec::ArrayVec;
use tables::block::{Block, Pair};
use units::Scale;

// The most choice costs.
const CHOICES: usize = Block::TRAINS * Block::CHOICES;
// The most costs of all pairs.
const ENTRIES: usize = Block::PAIRS * Block::ENTRIES;

// The sizes, by train.
pub type Sizes = ArrayVec<u64, { Block::TRAINS }>;
// The costs of the choices, by train then choice.
pub type ChoiceCosts = ArrayVec<u64, CHOICES>;
// The trains of each pair.
pub type Pairs = ArrayVec<Pair, { Block::PAIRS }>;
// The costs of each pair, 'a outer, b inner'.
pub type EntryCosts = ArrayVec<u64, ENTRIES>;

// 'choice costs by train then choice', and of each pair its trains and then its costs, 'a outer, b inner'. A cost of a forbidden entry is the line's mark.
#[derive(Drop)]
pub struct LoadNumbers {
    pub scale: Scale,
    pub sizes: Sizes,
    pub choices: ChoiceCosts,
    pub pairs: Pairs,
    pub entries: EntryCosts,
}

impl LoadNumbers {
    // Of a scale: no train yet, and no pair.
    pub fn new(scale: Scale) -> LoadNumbers
        ensures { numbers_given result ≡ numbers scale [] [] [] [] [] }
    {
        LoadNumbers {
            scale,
            sizes: ArrayVec::new(),
            choices: ArrayVec::new(),
            pairs: ArrayVec::new(),
            entries: ArrayVec::new(),
        }
    }
}
