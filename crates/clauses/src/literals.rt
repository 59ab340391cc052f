// Document 02, change 7: the literals of a clause, and the cell that it is charged to.
ghost use Rattle.std.specs.Prelude.{◌≡◌, true, ◌<◌, ◌≤◌, pos, nat_abs};
ghost use Rattle.tables.specs.Block.{max_trains};
ghost use Rattle.clauses.specs.Clauses.{clause_choices, train_of, failing, cell_at, cell_by, cell_of, other_of, literals_right, max_cells};

use crate::clause::Clause;
use tables::block::Block;

// How many choices every train has.
pub const CHOICES: usize = 2;
// How many entries a pair has.
pub const ENTRIES: usize = CHOICES * CHOICES;
// How many codes of two trains there are.
pub const CODES: usize = Block::TRAINS * Block::TRAINS;
// How many cells there are.
pub const CELLS: usize = ENTRIES * CODES;

// Whether 19 leaves two literals that are so far from 0, over n trains: signs have no say.
#[tactic(auto, unfolding(crate::specs::Clauses::literals_right))]
pub fn right(n: usize, first: usize, second: usize) -> bool
    ensures { result ≡ literals_right n (pos first) (pos second) }
{
    0 < first && first <= n && second <= n && first != second
}

// The second literal of a clause. A clause of one has its first literal twice.
#[tactic(auto, unfolding(crate::specs::Clauses::other_of))]
fn other(clause: Clause) -> i64
    ensures { result ≡ other_of clause.first clause.second }
{
    if clause.second == 0 {
        return clause.first;
    }
    clause.second
}

// The train of a literal.
fn train(literal: i64) -> usize
    requires { (1 ≤ nat_abs literal) × (nat_abs literal ≤ max_trains) }
    ensures { result ≡ train_of literal }
{
    literal.unsigned_abs() as usize - 1
}

// The choice with which a plan fails a literal.
fn failing(literal: i64) -> usize
    ensures { result ≡ failing literal }
{
    usize::from(0 <= literal)
}

// The cell of choice a of train i with choice c of train j, where j does not come before i.
// Trains and choices are bounded for one call: an index type would be made of each literal and read back for the one sum.
pub fn cell_at(i: usize, a: usize, j: usize, c: usize) -> usize
    requires { (i < max_trains) × (a < clause_choices) × (j < max_trains) × (c < clause_choices) }
    ensures value { result ≡ cell_at i a j c }
    ensures bound { result < max_cells }
{
    ENTRIES * (Block::TRAINS * i + j) + (CHOICES * a + c)
}

// The cell of choice a of train i with choice c of train j.
fn cell(i: usize, a: usize, j: usize, c: usize) -> usize
    requires { (i < max_trains) × (a < clause_choices) × (j < max_trains) × (c < clause_choices) }
    ensures value { result ≡ cell_by i a j c }
    ensures bound { result < max_cells }
{
    if j < i {
        return cell_at(j, c, i, a);
    }
    cell_at(i, a, j, c)
}

// The one cell that a clause is charged to.
pub fn clause_cell(clause: Clause) -> usize
    requires { literals_right max_trains clause.first clause.second ≡ true }
    ensures value { result ≡ cell_of clause.first (other_of clause.first clause.second) }
    ensures bound { result < max_cells }
{
    let first = clause.first;
    let second = other(clause);
    cell(train(first), failing(first), train(second), failing(second))
}
