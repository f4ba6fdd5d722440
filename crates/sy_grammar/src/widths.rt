// The widths of vectors among sorts.
ghost use Rattle.std.specs.Prelude.{◌≡◌, ◌≤◌, length, IfOk};
ghost use Rattle.std.specs.List.{list_any};
ghost use Rattle.sy_terms.specs.Sorts as sorts;
ghost use Rattle.sy_terms.specs.declared.sort.Sort.TheVariants as variants;
ghost use Rattle.sy_grammar.specs.Defaults as spec;

use std::alloc::Global;
use sy_terms::{Seq, Sort, Want};

/// The widths among the arguments and the result, the result's first and the others ascending.
pub fn ordered(alloc: Global, sort: Sort, args: &[Sort]) -> Result<Seq<u8>, Want>
    ensures is { IfOk result (λ widths. widths ≡ spec.ordered sort args.now) }
    ensures few { IfOk result (λ widths. length widths ≤ 65) }
{
    let mut widths = own_width(alloc, sort)?;
    for width in 1..65 {
        if is_other(sort, args, width) {
            widths.push(width)?;
        }
    }
    Ok(widths)
}

/// The width of the sort, where it is of vectors.
fn own_width(alloc: Global, sort: Sort) -> Result<Seq<u8>, Want>
    ensures { IfOk result (λ widths. widths ≡ spec.width_of sort) }
{
    let mut widths = Seq::new(alloc);
    match sort {
        Sort::Bits(width) => widths.push(width)?,
        Sort::Bool | Sort::Int => {}
    }
    Ok(widths)
}

/// Whether it is the width of an argument, and not of the result.
fn is_other(sort: Sort, args: &[Sort], width: u8) -> bool
    ensures { result ≡ spec.is_other sort args.now width }
{
    has_width(args, width) && !is_width(sort, width)
}

/// Whether a sort is that of vectors of this width.
fn is_width(sort: Sort, width: u8) -> bool
    ensures { result ≡ sorts.same_sort (variants.Bits width) sort }
{
    match sort {
        Sort::Bits(other) => width == other,
        Sort::Bool | Sort::Int => false,
    }
}

/// Whether vectors of this width are among the sorts.
fn has_width(args: &[Sort], width: u8) -> bool
    ensures { result ≡ list_any (sorts.same_sort (variants.Bits width)) args.now }
{
    args.iter().any(|sort| is_width(*sort, width))
}
