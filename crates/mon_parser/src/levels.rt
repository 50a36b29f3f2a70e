use mon_trees::tree::BinaryOperator;

/// A level of operators that group to the left.
#[derive(Clone, Copy, Debug, Drop, PartialEq, Eq)]
pub enum Level {
    Or,
    And,
    Sum,
    Term,
}

/// An operator of such a level.
#[derive(Clone, Copy, Debug, Drop, PartialEq, Eq)]
pub enum Op {
    Or,
    And,
    Binary(BinaryOperator),
}

/// What may stand behind an atom, by its first token.
#[derive(Clone, Copy, Debug, Drop, PartialEq, Eq)]
pub enum Suffix {
    /// `(`
    Call,
    /// `[`
    Subscript,
    /// `.`
    Ask,
}
