// How a search goes.
use sy_intsolve_cuts::Order;
use sy_query_base::Limits;

/// How a search goes: its limits, and which open test it splits on.
#[derive(Clone, Copy, Debug, PartialEq, Eq)]
pub(crate) struct Plan {
    pub(crate) limits: Limits,
    pub(crate) order: Order,
}
