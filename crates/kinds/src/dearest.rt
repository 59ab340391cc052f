// Document 02, change 13, 'Kind 0F': n and sizes.
ghost use Rattle.std.specs.Prelude.{◌≡◌};
ghost use Rattle.lines.specs.Asked.{request_if};
ghost use Rattle.kinds.specs.Dearest.{dearest_verdict, dearest_request};

use crate::load;
use frames::frame::Frame;
use lines::field::Field;
use lines::request::{Dearest, FieldRun, Request};
use lines::verdict;
use refusals::Refusal;

// The first size: by the rule of a load's, behind n.
const SIZE: Field = Field {
    at: load::TRAINS.at + load::TRAINS.width,
    ..load::SIZE
};

// The sizes of a study.
#[tactic(auto, using(crate::proofs::DearestAccepted::count_read), unfolding(crate::specs::Dearest::dearest_verdict))]
pub fn read_dearest(frame: Frame<'_>) -> Result<Request, Refusal>
    ensures { result ≡ request_if (dearest_verdict frame.entry.line.now) (dearest_request frame.entry.line.now) }
{
    verdict::field_verdict(frame, load::TRAINS)?;
    let n = load::TRAINS.number_in(frame.line) as usize;
    verdict::run_verdict(frame, SIZE, n)?;
    verdict::end_verdict(frame.bytes(), SIZE.further(n).at)?;
    Ok(Request::Dearest(Dearest {
        sizes: FieldRun {
            at: SIZE.at,
            count: n,
        },
    }))
}
