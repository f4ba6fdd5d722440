// Operators on truth values, as far as these are known.

/// What a path tells of a term.
#[derive(Clone, Copy)]
pub(crate) enum Sight {
    /// The term's value is that of the form of this number.
    Linear(usize),
    /// The term's truth value.
    Settled(bool),
    /// Nothing.
    Open,
}

impl Sight {
    /// The truth value, where it is known.
    pub(crate) fn truth(self) -> Option<bool> {
        match self {
            Sight::Settled(truth) => Some(truth),
            Sight::Linear(_) | Sight::Open => None,
        }
    }

    /// The negation.
    pub(crate) fn opposite(self) -> Sight {
        match self {
            Sight::Settled(truth) => Sight::Settled(!truth),
            Sight::Linear(_) | Sight::Open => Sight::Open,
        }
    }

    /// Both: false where one is known false, true where both are known true.
    pub(crate) fn and(self, other: Sight) -> Sight {
        match (self, other) {
            (Sight::Settled(false), _) | (_, Sight::Settled(false)) => Sight::Settled(false),
            (Sight::Settled(true), Sight::Settled(true)) => Sight::Settled(true),
            _ => Sight::Open,
        }
    }
}

/// All of them: false where one is known false, true where all are known true.
pub(crate) fn all_of(sights: &[Sight]) -> Sight {
    let mut all = Sight::Settled(true);
    for sight in sights {
        all = all.and(*sight);
    }
    all
}

/// Any of them: true where one is known true, false where all are known false.
pub(crate) fn any_of(sights: &[Sight]) -> Sight {
    let mut none = Sight::Settled(true);
    for sight in sights {
        none = none.and(sight.opposite());
    }
    none.opposite()
}

/// Whether all of them are known truth values.
pub(crate) fn are_settled(sights: &[Sight]) -> bool {
    for sight in sights {
        if sight.truth().is_none() {
            return false;
        }
    }
    true
}

/// How many of them are known true.
fn count_true(sights: &[Sight]) -> usize {
    let mut count = 0usize;
    for sight in sights {
        if matches!(sight, Sight::Settled(true)) {
            count = count.saturating_add(1);
        }
    }
    count
}

/// Whether an odd number of known truth values is true.
pub(crate) fn odd(sights: &[Sight]) -> Sight {
    Sight::Settled(count_true(sights) % 2 == 1)
}

/// Whether known truth values are all the same.
pub(crate) fn same(sights: &[Sight]) -> Sight {
    let count = count_true(sights);
    Sight::Settled(count == 0 || count == sights.len())
}

/// Whether no two of known truth values are the same.
pub(crate) fn different(sights: &[Sight]) -> Sight {
    let count = count_true(sights);
    Sight::Settled(count <= 1 && sights.len().saturating_sub(count) <= 1)
}

/// Whether known truth values, all but the last of which are premises, make the implication true.
pub(crate) fn implied(sights: &[Sight]) -> Sight {
    match sights.split_last() {
        Some((conclusion, premises)) => all_of(premises).and(conclusion.opposite()).opposite(),
        None => Sight::Open,
    }
}
