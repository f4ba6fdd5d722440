// The names of causes.
ghost use Rattle.std.specs.Prelude.{◌≡◌};
ghost use Rattle.sy_loop_spec.specs.Names.{fail_name_of};

use crate::outcome::FailCause;
use sy_query_base::Decide;
use sy_query_limits::FailName;
use sy_terms::Theory;

/// The cause's name; that of a solver's budget is the solver's.
pub fn fail_name<T: Theory, D: Decide<T>>(cause: &FailCause<T, D::Spent>) -> FailName
    ensures { result ≡ fail_name_of D.budget cause.now }
{
    match cause {
        FailCause::Size => FailName::Size,
        FailCause::Rounds(_) => FailName::Rounds,
        FailCause::Points(_, _, _, _, _) => FailName::Points,
        FailCause::Bank(_, _, _, _, _) => FailName::Bank,
        FailCause::Weight(_, _) => FailName::Weight,
        FailCause::Decide(_, _, spent) => D::name_of(spent),
        FailCause::Range(_, _) => FailName::Range,
    }
}
