// Document 01, 'Lines' and 'What is declined': from a line and a well-formed block to what the line asks, or the first reason to decline it.
#![tactic(auto)]

ghost use Rattle.std.specs.Prelude.{◌≡◌};
ghost use Rattle.lines.specs.Asked.{line_from};
ghost use Rattle.tables.specs.Known.{block_numbers};
ghost use Rattle.reader.specs.Reading.{line_of};

use frames::fields;
use frames::frame::Frame;
use lines::kind::Kind;
use lines::request::{Line, Request};
use refusals::Refusal;
use tables::block::Block;

// What the line asks, or why it is declined.
pub fn read(line: &[u8], block: Block<'_>) -> Line
    ensures { result ≡ line_of line.now (block_numbers block.entry) }
{
    Line::from(request(line, block))
}

// A line is a frame, its first byte the kind; some kinds need a loaded study; then the fields of the kind.
#[tactic(auto, using(frames::proofs::Bytes::framed_whole), unfolding(crate::specs::Reading::line_of, crate::specs::Reading::kind_line))]
fn request(line: &[u8], block: Block<'_>) -> Result<Request, Refusal>
    ensures { line_from result ≡ line_of line.now (block_numbers block.entry) }
{
    let frame = Frame::new(line)?;
    let kind = Kind::try_from(fields::field(frame.line, 0, Kind::WIDTH))?;
    kinds::read_fields(frame, kind, block)
}
