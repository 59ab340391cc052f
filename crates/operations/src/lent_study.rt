// The numbers of a load that are in range, in lists that are lent: what a caller keeps them in has the room that it needs.
ghost use Rattle.std.specs.Prelude.{◌≡◌, map};
ghost use Rattle.tables.specs.Numbers.{numbers, InRange};

use tables::block::Pair;
use units::Scale;

// As in `LoadNumbers`: sizes and choices by train, and of each pair its trains and then its costs, 'a outer, b inner'.
#[derive(Clone, Copy)]
pub struct LentStudy<'a> {
    pub scale: Scale,
    pub sizes: &'a [u64],
    pub choices: &'a [u64],
    pub pairs: &'a [Pair],
    pub entries: &'a [u64],
    ghost in_range: { InRange (numbers scale sizes.now choices.now (map (λ p. p.first) pairs.now) (map (λ p. p.second) pairs.now) entries.now) },
}

impl<'a> LentStudy<'a> {
    // The study of lent numbers that are known to be in range.
    pub fn known(
        scale: Scale,
        sizes: &'a [u64],
        choices: &'a [u64],
        pairs: &'a [Pair],
        entries: &'a [u64],
    ) -> LentStudy<'a>
        requires { InRange (numbers scale sizes.now choices.now (map (λ p. p.first) pairs.now) (map (λ p. p.second) pairs.now) entries.now) }
        ensures scale { result.scale ≡ scale }
        ensures sizes { result.sizes.now ≡ sizes.now }
        ensures choices { result.choices.now ≡ choices.now }
        ensures pairs { result.pairs.now ≡ pairs.now }
        ensures entries { result.entries.now ≡ entries.now }
    {
        LentStudy {
            scale,
            sizes,
            choices,
            pairs,
            entries,
        }
    }
}
