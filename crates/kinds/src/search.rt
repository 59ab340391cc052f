// Document 01, '06 search': the budget.
ghost use Rattle.std.specs.Prelude.{◌≡◌};
ghost use Rattle.lines.specs.Asked.{request_if};
ghost use Rattle.kinds.specs.Lines.{search_verdict, search_request};

use frames::frame::Frame;
use lines::field::{Field, Rule};
use lines::kind::Kind;
use lines::request::{Request, Search};
use lines::verdict;
use refusals::Refusal;

// The highest budget.
const HIGHEST: u64 = 10000000;
// The budget.
const BUDGET: Field = Field {
    at: Kind::WIDTH,
    width: 4,
    rule: Rule::Between(1, HIGHEST),
    refusal: Refusal::Budget,
};

// A search.
#[tactic(auto, unfolding(crate::specs::Lines::search_verdict))]
pub fn read_search(frame: Frame<'_>) -> Result<Request, Refusal>
    ensures { result ≡ request_if (search_verdict frame.entry.line.now) (search_request frame.entry.line.now) }
{
    verdict::last_verdict(frame, BUDGET)?;
    Ok(Request::Search(Search {
        budget: BUDGET.number_in(frame.line),
    }))
}
