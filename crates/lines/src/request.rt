// Document 01, 'Lines': a read line is either a refusal or one of fifteen requests, each with its own fields. Offsets, in bytes, stand for long fields.
use crate::field::Field;
use refusals::Refusal;
use tables::block::Block;
use units::{Points, Scale};

// A run of fields of equal width: the byte where it begins, and how many there are.
#[derive(Clone, Copy)]
pub struct FieldRun {
    pub at: usize,
    pub count: usize,
}

#[derive(Clone, Copy)]
pub struct Load {
    pub scale: Scale,
    pub sizes: FieldRun,
    pub choices: FieldRun,
    // The first pair's place and the number of pairs; a pair is its two trains and then its costs.
    pub pairs: FieldRun,
}

impl Load {
    // How many bytes a scale has.
    pub const SCALE_WIDTH: usize = 2;
    // How many bytes a cost has.
    pub const COST_WIDTH: usize = 3;
    // How many bytes the two trains of a pair have.
    pub const PAIR_WIDTH: usize = 2 * Field::COUNT_WIDTH;
    // The most choice costs.
    pub const CHOICE_COSTS: usize = Block::TRAINS * Block::CHOICES;
    // The most costs of all pairs.
    pub const ENTRIES: usize = Block::PAIRS * Block::ENTRIES;
}

#[derive(Clone, Copy)]
pub struct Add {
    pub train: usize,
    pub choice: usize,
    pub points: Points,
}

#[derive(Clone, Copy)]
pub struct Shift {
    pub lifts: FieldRun,
    pub moves: FieldRun,
}

impl Shift {
    // How many bytes a lift or a move has.
    pub const MOVE_WIDTH: usize = 6;
}

#[derive(Clone, Copy)]
pub struct Certify {
    // W.
    pub full: u64,
    pub weights: FieldRun,
}

impl Certify {
    // How many bytes W and a weight have.
    pub const WEIGHT_WIDTH: usize = 3;
}

#[derive(Clone, Copy)]
pub struct Search {
    pub budget: u64,
}

// A study written as clauses.
#[derive(Clone, Copy)]
pub struct Clauses {
    pub trains: usize,
    pub scale: Scale,
    // The first clause's place and the number of clauses; a clause is its two literals and then its weight.
    pub clauses: FieldRun,
}

impl Clauses {
    // How many bytes the number of clauses has.
    pub const COUNT_WIDTH: usize = 2;
    // How many bytes a literal has.
    pub const LITERAL_WIDTH: usize = 1;
    // How many bytes a clause has.
    pub const WIDTH: usize = 2 * Self::LITERAL_WIDTH + Load::COST_WIDTH;
    // The most clauses.
    pub const MOST: usize = 500;
}

// The question whether a choice reaches a limit.
#[derive(Clone, Copy)]
pub struct Explain {
    pub train: usize,
    pub choice: usize,
    pub limit: Points,
}

impl Explain {
    // How many bytes a limit has.
    pub const LIMIT_WIDTH: usize = 4;
}

// The order in which trains are tried: train numbers.
#[derive(Clone, Copy)]
pub struct Order {
    pub trains: FieldRun,
}

// A plan record, read for a screen: its choices, by train.
#[derive(Clone, Copy)]
pub struct Screen {
    pub choices: FieldRun,
}

// A plan record, read for planners.
#[derive(Clone, Copy)]
pub struct Planner {
    pub choices: FieldRun,
    pub bound: Points,
    pub cost: Points,
}

// The plan of a record that is to be written: its choices, by train.
#[derive(Clone, Copy)]
pub struct Record {
    pub choices: FieldRun,
}

// The sizes whose dearest study is asked for.
#[derive(Clone, Copy)]
pub struct Dearest {
    pub sizes: FieldRun,
}

#[derive(Clone, Copy)]
pub enum Request {
    Load(Load),
    Add(Add),
    Shift(Shift),
    Tighten,
    Certify(Certify),
    Search(Search),
    Save,
    Round,
    Clauses(Clauses),
    Explain(Explain),
    Order(Order),
    Screen(Screen),
    Planner(Planner),
    Record(Record),
    Dearest(Dearest),
}

// What a line asks, or why it is declined: an enum of its own and no Result, as document 01's Forms ask.
#[derive(Clone, Copy)]
pub enum Line {
    Asked(Request),
    Refused(Refusal),
}

impl From<Result<Request, Refusal>> for Line {
    ghost use Rattle.std.specs.Prelude.{◌≡◌};
    ghost use Rattle.lines.specs.Asked.{line_from};

    ghost from_gives = { λ r l. l ≡ line_from r };

    fn from(asked: Result<Request, Refusal>) -> Line {
        match asked {
            Ok(request) => Line::Asked(request),
            Err(refusal) => Line::Refused(refusal),
        }
    }
}
