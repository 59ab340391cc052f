// The numbers of a load that are in range. It stands for that fact in the signatures above.
ghost use Rattle.std.specs.Prelude.{◌≡◌};
ghost use Rattle.tables.specs.Numbers.{InRange};
ghost use Rattle.operations.specs.Given.{numbers_given};

use crate::load_numbers::LoadNumbers;

#[derive(Clone, Copy)]
pub struct GivenStudy<'a> {
    pub numbers: &'a LoadNumbers,
    ghost in_range: { InRange (numbers_given numbers.now) },
}

impl<'a> GivenStudy<'a> {
    // The study of numbers that are known to be in range.
    pub fn known(numbers: &'a LoadNumbers) -> GivenStudy<'a>
        requires { InRange (numbers_given numbers.now) }
        ensures { result.numbers.now ≡ numbers.now }
    {
        GivenStudy { numbers }
    }
}
