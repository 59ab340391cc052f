// Document 01, 'Lines': a line is one frame.
ghost use Rattle.std.specs.Prelude.{◌≡◌, IfOk, IfErr};
ghost use Rattle.refusals.specs.Verdicts.{Fine, Declined};
ghost use Rattle.frames.specs.Digits.{bytes};
ghost use Rattle.frames.specs.Frames.{all_digits, new_frame, Framed};

use crate::digits;
use refusals::Refusal;

// A line of whole bytes.
#[derive(Clone, Copy)]
pub struct Frame<'a> {
    pub line: &'a [u8],
    ghost framed: { Framed line.now (bytes line.now) },
}

impl<'a> Frame<'a> {
    // The most characters of a line.
    pub const CHARACTERS: usize = 19836;

    // The frame that the line is, or why it is none: over so many characters, or empty, of an odd count or with another character.
    // A constructor and no `TryFrom`: document 01's Forms ask for one, with the limit beside it.
    #[tactic(auto, unfolding(crate::specs::Frames::framed))]
    pub fn new(line: &'a [u8]) -> Result<Frame<'a>, Refusal>
        ensures ok { IfOk result (λ f. (f.line.now ≡ line.now) × (new_frame line.now ≡ Fine)) }
        ensures err { IfErr result (λ r. new_frame line.now ≡ Declined r) }
    {
        let n = line.len();
        if Self::CHARACTERS < n {
            return Err(Refusal::TooLong);
        }
        if n == 0 || n % 2 != 0 || !all_digits(line) {
            return Err(Refusal::Characters);
        }
        Ok(Frame { line })
    }

    // The frame of a line that is known to be one.
    pub fn known(line: &'a [u8]) -> Frame<'a>
        requires { Framed line.now (bytes line.now) }
        ensures { result.line.now ≡ line.now }
    {
        Frame { line }
    }

    // How many bytes the line has.
    pub fn bytes(self) -> usize
        ensures { result ≡ bytes self.entry.line.now }
    {
        self.line.len() / 2
    }
}

// Whether every character is a digit. No character ends the loop, so that several can be asked at once.
#[tactic(auto, using(crate::proofs::Bytes::all_digits_lem), unfolding(theory::specs::Range::all))]
fn all_digits(line: &[u8]) -> bool
    ensures { result ≡ all_digits line.now }
{
    let mut so_far = true;
    for c in line {
        so_far &= digits::is_digit(*c);
    }
    so_far
}
