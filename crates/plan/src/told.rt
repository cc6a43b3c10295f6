//! What a refusal tells, as four numbers.
// Numbers and no enum: the report's format writes numbers.

#[derive(Clone, Copy, PartialEq, Eq, Debug)]
pub struct Told {
    pub number: usize,
    pub line: usize,
    pub field: usize,
    pub place: usize,
}
