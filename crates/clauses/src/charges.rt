// Document 02, change 7: what the clauses charge, and the pairs that they name.
ghost use Rattle.std.specs.Prelude.{◌≡◌, [], length, replicate};
ghost use Rattle.clauses.specs.Given.{clauses_given};
ghost use Rattle.clauses.specs.Clauses.{max_codes, max_cells, codes_below, pair_codes};
ghost use Rattle.clauses.specs.Charges.{Charged, marked_pair};

use crate::clear_clauses::ClearClauses;
use crate::literals;
use crate::literals::{CELLS, CODES, ENTRIES};
use arrayvec::ArrayVec;
use tables::block::Block;

// The costs of all cells.
pub type Cells = [u64; CELLS];

// Codes of two trains.
pub type Codes = ArrayVec<usize, CODES>;

// What clauses charge, and the codes of the pairs that they name, ascending.
#[derive(Drop)]
pub struct Charges {
    pub cells: Cells,
    pub codes: Codes,
}

impl Charges {
    // Of no clause yet.
    pub fn new() -> Charges
        ensures no_cost { result.cells ≡ replicate max_cells 0 }
        ensures no_pair { result.codes.items ≡ [] }
    {
        Charges {
            cells: [0; CELLS],
            codes: ArrayVec::new(),
        }
    }
}

// Lists the marked codes of two trains, ascending.
fn list_codes(marks: &[bool; CODES], codes: &mut Codes)
    requires { codes.old.items ≡ [] }
    ensures { codes.new.items ≡ codes_below (marked_pair marks.now) max_codes }
{
    for o in 0..CODES {
        if o / Block::TRAINS < o % Block::TRAINS && marks[o] {
            codes.push(o);
        }
    }
}

// Adds each weight to the cell of its clause, marks the clause's code, and lists the marked ones: in a table and a list that are lent, so that neither is copied.
pub fn charge_in(clauses: ClearClauses<'_>, cells: &mut Cells, codes: &mut Codes)
    requires { (cells.old ≡ replicate max_cells 0) × (codes.old.items ≡ []) }
    ensures costs { Charged (clauses_given clauses.entry.items.now) (length clauses.entry.items.now) cells.new }
    ensures pairs { codes.new.items ≡ pair_codes (clauses_given clauses.entry.items.now) }
{
    let mut marks = [false; CODES];
    for clause in clauses.items {
        let cell = literals::clause_cell(*clause);
        cells[cell] += clause.weight;
        marks[cell / ENTRIES] = true;
    }
    list_codes(&marks, codes);
}

// What clauses charge, and the pairs that they name.
pub fn charge(clauses: ClearClauses<'_>) -> Charges
    ensures costs { Charged (clauses_given clauses.entry.items.now) (length clauses.entry.items.now) result.cells }
    ensures pairs { result.codes.items ≡ pair_codes (clauses_given clauses.entry.items.now) }
{
    let mut charges = Charges::new();
    charge_in(clauses, &mut charges.cells, &mut charges.codes);
    charges
}
