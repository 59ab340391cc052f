// Document 01, 'Lines': 'The first byte is the kind.'
ghost use Rattle.std.specs.Prelude.{◌≡◌};
ghost use Rattle.lines.specs.Kinds.{needs_study};

use refusals::Refusal;

#[derive(Clone, Copy, PartialEq, Eq)]
pub enum Kind {
    Load,
    Add,
    Shift,
    Tighten,
    Certify,
    Search,
    Save,
    Round,
    Clauses,
    Explain,
    Order,
    Screen,
    Planner,
    Record,
    Dearest,
}

impl Kind {
    // How many bytes a kind has.
    pub const WIDTH: usize = 1;

    // Whether a line of this kind is declined on a fresh block.
    // A rule of document 01 in one `matches!`: no derive or method tells three kinds from twelve.
    pub fn needs_study(self) -> bool
        ensures { result ≡ needs_study self }
    {
        !matches!(self, Kind::Load | Kind::Clauses | Kind::Dearest)
    }
}

// The kind of a number.
impl TryFrom<u64> for Kind {
    type Error = Refusal;

    ghost use Rattle.std.specs.Prelude.{◌≡◌};
    ghost use Rattle.lines.specs.Kinds.{new_kind};

    ghost try_from_gives = { λ n r. r ≡ new_kind n };

    #[tactic(auto, unfolding(crate::specs::Kinds::new_kind))]
    fn try_from(number: u64) -> Result<Kind, Refusal> {
        match number {
            1 => Ok(Kind::Load),
            2 => Ok(Kind::Add),
            3 => Ok(Kind::Shift),
            4 => Ok(Kind::Tighten),
            5 => Ok(Kind::Certify),
            6 => Ok(Kind::Search),
            7 => Ok(Kind::Save),
            8 => Ok(Kind::Round),
            9 => Ok(Kind::Clauses),
            10 => Ok(Kind::Explain),
            11 => Ok(Kind::Order),
            12 => Ok(Kind::Screen),
            13 => Ok(Kind::Planner),
            14 => Ok(Kind::Record),
            15 => Ok(Kind::Dearest),
            _ => Err(Refusal::NoKind),
        }
    }
}

// The number of a kind.
impl From<Kind> for u64 {
    ghost use Rattle.std.specs.Prelude.{◌≡◌};
    ghost use Rattle.lines.specs.Kinds.{kind_number};

    ghost from_gives = { λ k n. n ≡ kind_number k };

    fn from(kind: Kind) -> u64 {
        match kind {
            Kind::Load => 1,
            Kind::Add => 2,
            Kind::Shift => 3,
            Kind::Tighten => 4,
            Kind::Certify => 5,
            Kind::Search => 6,
            Kind::Save => 7,
            Kind::Round => 8,
            Kind::Clauses => 9,
            Kind::Explain => 10,
            Kind::Order => 11,
            Kind::Screen => 12,
            Kind::Planner => 13,
            Kind::Record => 14,
            Kind::Dearest => 15,
        }
    }
}
