// By what a search ended, where that guides what is tried after it.
use sy_loop_spec::FailCause;
use sy_query_base::Decide;
use sy_terms::Theory;

/// Whether the search ended by a full bank.
pub(crate) fn is_bank<T: Theory, D: Decide<T>>(cause: &FailCause<T, D::Spent>) -> bool {
    match cause {
        FailCause::Bank(_, _, _, _, _) => true,
        FailCause::Size => false,
        FailCause::Rounds(_) => false,
        FailCause::Points(_, _, _, _, _) => false,
        FailCause::Weight(_, _) => false,
        FailCause::Decide(_, _, _) => false,
        FailCause::Range(_, _) => false,
    }
}

/// Whether the search ended by bodies that the solver didn't decide.
pub(crate) fn is_undecided<T: Theory, D: Decide<T>>(cause: &FailCause<T, D::Spent>) -> bool {
    match cause {
        FailCause::Decide(_, _, _) => true,
        FailCause::Size => false,
        FailCause::Rounds(_) => false,
        FailCause::Points(_, _, _, _, _) => false,
        FailCause::Bank(_, _, _, _, _) => false,
        FailCause::Weight(_, _) => false,
        FailCause::Range(_, _) => false,
    }
}
