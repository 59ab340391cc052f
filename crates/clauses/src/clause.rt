// Document 02, change 7: a clause, as a line writes it.
#[derive(Clone, Copy, Default)]
pub struct Clause {
    // A literal is a train's number from 1 on, below 0 where its first choice fails it.
    pub first: i64,
    // 0 where the clause has one literal, as the line has it.
    pub second: i64,
    // In points.
    pub weight: u64,
}
