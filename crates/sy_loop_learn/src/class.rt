// Classes of formulas.

/// Which clauses a formula may have, from the narrow to the wide.
#[derive(Clone, Copy, PartialEq, Eq)]
pub enum Class {
    /// Literals of the problem, those of the hull, and the problem's clauses.
    Narrow,
    /// All literals, and the problem's clauses.
    Singles,
    /// Clauses of two literals as well.
    Pairs,
    /// Clauses of three literals as well.
    Triples,
}

impl Class {
    /// Whether literals that don't stand in the problem are used.
    pub(crate) fn has_all(self) -> bool {
        !matches!(self, Class::Narrow)
    }

    /// Whether clauses are made that don't stand in the problem.
    pub(crate) fn has_pairs(self) -> bool {
        matches!(self, Class::Pairs | Class::Triples)
    }
}
