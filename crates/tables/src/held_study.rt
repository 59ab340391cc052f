// A loaded study: the numbers of a block, with what a well-formed block keeps. It stands for that fact in the signatures above.
ghost use Rattle.std.specs.Prelude.{◌≡◌};
ghost use Rattle.tables.specs.WellFormed.{Study};

use crate::block::Places;

#[derive(Clone, Copy)]
pub struct HeldStudy<'a> {
    pub numbers: &'a Places,
    ghost held: { Study numbers.now },
}

impl<'a> HeldStudy<'a> {
    // The study of numbers that are known to hold one.
    pub fn known(numbers: &'a Places) -> HeldStudy<'a>
        requires { Study numbers.now }
        ensures { result.numbers.now ≡ numbers.now }
    {
        HeldStudy { numbers }
    }
}
