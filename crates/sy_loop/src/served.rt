// Whether trees that are good at all points have to be evaluated at the stored assignments.
ghost use Rattle.std.specs.Prelude.{◌≡◌, ◌&&◌};
ghost use Rattle.std.specs.List.{list_all};
ghost use Rattle.sy_loop.specs.Applying as spec;

use sy_loop_goods::Goods;
use sy_loop_pointwise::Posed;
use sy_terms::Theory;

/// Whether it is known of each leaf where it is good, and each constraint applies the function to be found, so that it
/// rests on a point. A tree that is good at all points then meets the problem at each stored assignment.
pub(crate) fn is_served<T: Theory>(posed: &[Posed<T>], goods: &Goods) -> bool
    ensures { result ≡ (spec.are_known goods.now.leaving && list_all spec.has_application posed.now) }
{
    match goods.leaving {
        None => all_apply(posed),
        Some(_) => false,
    }
}

/// Whether each constraint applies the function to be found.
fn all_apply<T: Theory>(posed: &[Posed<T>]) -> bool
    ensures { result ≡ list_all spec.has_application posed.now }
{
    posed.iter().all(|constraint| has_application(constraint))
}

/// Whether the constraint applies the function to be found.
fn has_application<T: Theory>(posed: &Posed<T>) -> bool
    ensures { result ≡ spec.has_application posed.now }
{
    match posed {
        Posed::Free => false,
        Posed::Applies(_, _) => true,
    }
}
