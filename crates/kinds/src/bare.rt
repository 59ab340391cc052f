// Document 01, '04 tighten: no fields'; document 02, 07 save and 08, a directional round.
ghost use Rattle.std.specs.Prelude.{◌≡◌};
ghost use Rattle.lines.specs.Asked.{request_if};
ghost use Rattle.kinds.specs.Lines.{bare_verdict};

use frames::frame::Frame;
use lines::kind::Kind;
use lines::request::Request;
use lines::verdict;
use refusals::Refusal;

// A kind without fields.
pub fn read_bare(frame: Frame<'_>, request: Request) -> Result<Request, Refusal>
    ensures { result ≡ request_if (bare_verdict frame.entry.line.now) request }
{
    verdict::end_verdict(frame.bytes(), Kind::WIDTH)?;
    Ok(request)
}
