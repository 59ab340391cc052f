// Document 02, change 14: 'the sum of all its bytes, carried round at 256'.
ghost use Rattle.std.specs.Prelude.{◌≡◌};
ghost use Rattle.frames.specs.ByteSum.{byte_sum};

use crate::digits;

// The sum of all bytes of a line, modulo 256. The sum wraps, as document 01's Forms ask.
#[tactic(auto, unfolding(theory::specs::Sum::sum, crate::specs::ByteSum::byte_sum))]
pub fn byte_sum(line: &[u8]) -> u8
    ensures { result ≡ byte_sum line.now }
{
    let mut sum = 0u8;
    for i in 0..line.len() / 2 {
        sum = sum.wrapping_add(digits::carried_byte(line, i));
    }
    sum
}
