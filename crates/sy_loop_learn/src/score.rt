// How good a clause is, and the order by cost.

/// A number of something that costs so much.
#[derive(Clone, Copy, PartialEq, Eq, PartialOrd, Ord)]
pub(crate) struct Priced {
    pub(crate) cost: u32,
    pub(crate) number: usize,
}

/// What a clause costs, and how many points it excludes that have to be out.
#[derive(Clone, Copy)]
pub(crate) struct Score {
    pub(crate) cost: u32,
    pub(crate) excluded: u32,
}

/// How a cost counts beside the number of excluded points.
fn weight(cost: u32, steep: bool) -> u64 {
    let cost = u64::from(cost.max(1));
    if steep {
        cost
    } else {
        cost.saturating_mul(cost)
    }
}

impl Score {
    /// Whether this one has the lower cost for each excluded point, where `steep`, else for their number's square root.
    /// Of equals the cheaper one is better.
    pub(crate) fn is_better(&self, other: &Score, steep: bool) -> bool {
        let this = weight(self.cost, steep).saturating_mul(u64::from(other.excluded));
        let that = weight(other.cost, steep).saturating_mul(u64::from(self.excluded));
        this < that || (this == that && self.cost < other.cost)
    }
}
