// A line on a well-formed block: what it asks is carried out, and answered into the room that there is. A module for each kind.
// Room for a fixed reply is asked of the lent buffer in each module but that of a save: a struct around the buffer would say of its field what `Wrote` says of it.
// `Study` is asked of a block that is written, since a `HeldStudy` lends one to be read.
#![tactic(auto)]

mod add_line;
mod certify_line;
mod clauses_line;
mod dearest_line;
mod explain_line;
pub mod line;
mod load_line;
mod order_line;
mod outcome;
mod record_lines;
mod round_line;
mod save_line;
mod search_line;
mod shift_line;
mod tighten_line;
