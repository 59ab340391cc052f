// The lifts or the moves of a shift, in parts: the numbers, none of them further from 0 than 10^12. It stands for that fact in the signatures above.
ghost use Rattle.std.specs.Prelude.{◌≡◌};
ghost use Rattle.shift.specs.Shift.{SmallMoves};

#[derive(Clone, Copy)]
pub struct Amounts<'a> {
    pub numbers: &'a [i64],
    ghost small: { SmallMoves numbers.now },
}

impl<'a> Amounts<'a> {
    // The amounts of numbers that are known to be small.
    pub fn known(numbers: &'a [i64]) -> Amounts<'a>
        requires { SmallMoves numbers.now }
        ensures { result.numbers.now ≡ numbers.now }
    {
        Amounts { numbers }
    }
}
