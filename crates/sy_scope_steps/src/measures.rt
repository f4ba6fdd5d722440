// Unfolded sizes and depths of terms.
ghost use Rattle.std.specs.Prelude.{◌≡◌, min, IfOk, OnOk};
ghost use Rattle.sy_terms.specs.Denoted.{expr_of, exprs_of};
ghost use Rattle.sy_terms.specs.Definitions.{bodies};
ghost use Rattle.sy_forms_items.specs.Measures.{of_body};
ghost use Rattle.sy_forms_items.specs.Measured.{measures_of};
ghost use Rattle.sy_scope_steps.specs.Sizes as spec;

use std::alloc::Global;
use sy_forms_items::Measures;
use sy_terms::{Def, Fun, Seq, Term, Theory, Want};

/// Sizes and depths above these count as these: one more than a body may have.
const SIZE_CAP: u64 = 1_000_001;

const DEPTH_CAP: u64 = 1201;

/// What a called body adds: that of the definition, and nothing for a function to be found.
fn measure_called(measures: &[u64], function: Fun) -> u64
    ensures { result ≡ of_body measures.now function }
{
    match function {
        Fun::Defined(number) => match measures.get(number as usize) {
            Some(measure) => *measure,
            None => 0,
        },
        Fun::Wanted(_) => 0,
    }
}

/// The number of nodes where each call of a definition counts its body's too, at most `cap`. `sizes` are those of the
/// definitions' bodies.
#[cycle(size)]
fn unfolded_size<T: Theory>(term: &Term<T>, sizes: &[u64], cap: u64) -> u64
    ensures { result ≡ min cap (spec.expr_size sizes.now (expr_of T.denotes term.now)) }
{
    let below = match term {
        Term::Const(_) => 0,
        Term::Var(_) => 0,
        Term::App(_, arguments) => unfolded_sizes(arguments.as_slice(), sizes, cap),
        Term::Call(function, arguments) => {
            let below = unfolded_sizes(arguments.as_slice(), sizes, cap);
            below.saturating_add(measure_called(sizes, *function))
        }
        Term::Let(bound, inner) => {
            let below = unfolded_sizes(bound.as_slice(), sizes, cap);
            below.saturating_add(unfolded_size(inner, sizes, cap))
        }
    };
    below.saturating_add(1).min(cap)
}

/// The same over all terms.
#[cycle(size)]
fn unfolded_sizes<T: Theory>(terms: &[Term<T>], sizes: &[u64], cap: u64) -> u64
    ensures { result ≡ min cap (spec.expr_sizes sizes.now (exprs_of T.denotes terms.now)) }
{
    let mut total = 0u64;
    for term in terms {
        total = total
            .saturating_add(unfolded_size(term, sizes, cap))
            .min(cap);
    }
    total
}

/// The number of nodes on the longest way down, through the bodies of called definitions too, at most `cap`. `depths`
/// are those of the definitions' bodies.
#[cycle(depth)]
fn unfolded_depth<T: Theory>(term: &Term<T>, depths: &[u64], cap: u64) -> u64
    ensures { result ≡ min cap (spec.expr_depth depths.now (expr_of T.denotes term.now)) }
{
    let below = match term {
        Term::Const(_) => 0,
        Term::Var(_) => 0,
        Term::App(_, arguments) => unfolded_depths(arguments.as_slice(), depths, cap),
        Term::Call(function, arguments) => {
            let below = unfolded_depths(arguments.as_slice(), depths, cap);
            below.max(measure_called(depths, *function))
        }
        Term::Let(bound, inner) => {
            let below = unfolded_depths(bound.as_slice(), depths, cap);
            below.max(unfolded_depth(inner, depths, cap))
        }
    };
    below.saturating_add(1).min(cap)
}

/// The greatest over all terms.
#[cycle(depth)]
fn unfolded_depths<T: Theory>(terms: &[Term<T>], depths: &[u64], cap: u64) -> u64
    ensures { result ≡ min cap (spec.expr_depths depths.now (exprs_of T.denotes terms.now)) }
{
    let mut greatest = 0u64;
    for term in terms {
        greatest = greatest.max(unfolded_depth(term, depths, cap));
    }
    greatest
}

/// Adds the measures of a definition's body.
fn measure<T: Theory>(measures: &mut Measures, body: &Term<T>) -> Result<(), Want>
    ensures { OnOk result (measures_of measures.new ≡ spec.measured_with (measures_of measures.old)
        (expr_of T.denotes body.now)) }
{
    let size = unfolded_size(body, measures.sizes.as_slice(), SIZE_CAP);
    let depth = unfolded_depth(body, measures.depths.as_slice(), DEPTH_CAP);
    measures.sizes.push(size)?;
    measures.depths.push(depth)?;
    Ok(())
}

/// The measures of the definitions' bodies, in order. Out of memory is `Want`.
pub(crate) fn measures_in<T: Theory>(alloc: Global, defs: &[Def<T>]) -> Result<Measures, Want>
    ensures { IfOk result (λ measures. measures_of measures ≡ spec.measures_in (bodies T.denotes defs.now)) }
{
    let mut measures = Measures {
        sizes: Seq::new(alloc),
        depths: Seq::new(alloc),
    };
    for def in defs {
        measure(&mut measures, &def.body)?;
    }
    Ok(measures)
}
