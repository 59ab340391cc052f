// Clauses as the fields of a line have left them: the functions that read further take it instead of the list.
ghost use Rattle.std.specs.Prelude.{◌≡◌};
ghost use Rattle.tables.specs.Block.{max_trains};
ghost use Rattle.clauses.specs.Given.{clauses_given};
ghost use Rattle.clauses.specs.Clauses.{Clear};

use crate::clause::Clause;

#[derive(Clone, Copy)]
pub struct ClearClauses<'a> {
    pub items: &'a [Clause],
    ghost clear: { Clear max_trains (clauses_given items.now) },
}

impl<'a> ClearClauses<'a> {
    // The clauses that are known to be clear.
    pub fn known(items: &'a [Clause]) -> ClearClauses<'a>
        requires { Clear max_trains (clauses_given items.now) }
        ensures { result.items.now ≡ items.now }
    {
        ClearClauses { items }
    }
}
