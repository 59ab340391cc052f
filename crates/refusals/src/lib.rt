// Document 01, 'What is declined', and document 02, changes 5, 7, 10, 11, 13 and 14: the reasons, with their numbers, and verdicts on a line, a field or an operation.
#![tactic(auto)]

#[derive(Clone, Copy, PartialEq, Eq)]
pub enum Refusal {
    // Empty, an odd count, or another character.
    Characters,
    // More characters than a frame has.
    TooLong,
    NoKind,
    // The kind needs a loaded study.
    FreshBlock,
    // A field that is not wholly there, or bytes left over.
    Fields,
    // n, s, a size or m outside its range.
    Range,
    // A cost above the highest that is not the mark of a forbidden entry, or added points above the highest cost.
    Cost,
    // i not below j, j not below n, or a pair not after the last.
    Pair,
    // A train or a choice that is not there.
    Absent,
    // A loaded cost would pass the highest cost.
    CostAbove,
    // A lift or a move outside its range.
    Move,
    // The constant or an entry would end outside its limits.
    PartsOutside,
    // W outside its range.
    FullWeight,
    // The weights' sums disagree.
    Sums,
    // A budget outside its range.
    Budget,
    // A block of another length, or not well formed.
    Malformed,
    // A weight above 0 on a forbidden entry.
    ForbiddenWeight,
    // A literal of an absent train, a first literal of 0, or one train twice.
    Literal,
    // More pairs than a block has.
    PairsAbove,
    // Not each train exactly once.
    Order,
    // A number of trains that is not the block's, or a choice that is not there.
    NotHeld,
    // A plan with a forbidden entry, a cost that is not its total, or a bound above that.
    Figures,
    // More tries than a search may be asked to make.
    Tries,
    // The bytes of a line over train radio do not add up.
    WrongSum,
}

// Document 01's number of a refusal.
impl From<Refusal> for u8 {
    ghost use Rattle.std.specs.Prelude.{◌≡◌};
    ghost use Rattle.refusals.specs.Refusals.{refusal_number};

    ghost from_gives = { λ r n. n ≡ refusal_number r };

    fn from(r: Refusal) -> u8 {
        match r {
            Refusal::Characters => 1,
            Refusal::TooLong => 2,
            Refusal::NoKind => 3,
            Refusal::FreshBlock => 4,
            Refusal::Fields => 5,
            Refusal::Range => 6,
            Refusal::Cost => 7,
            Refusal::Pair => 8,
            Refusal::Absent => 9,
            Refusal::CostAbove => 10,
            Refusal::Move => 11,
            Refusal::PartsOutside => 12,
            Refusal::FullWeight => 13,
            Refusal::Sums => 14,
            Refusal::Budget => 15,
            Refusal::Malformed => 16,
            Refusal::ForbiddenWeight => 18,
            Refusal::Literal => 19,
            Refusal::PairsAbove => 20,
            Refusal::Order => 21,
            Refusal::NotHeld => 22,
            Refusal::Figures => 23,
            Refusal::Tries => 24,
            Refusal::WrongSum => 25,
        }
    }
}

// Whether what was judged is fine, or the first reason to decline it.
pub type Verdict = Result<(), Refusal>;
