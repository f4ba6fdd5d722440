// The arguments and the sort of a part.
ghost use Rattle.std.specs.Prelude.{◌≡◌, [], IfOk, Ok};
ghost use Rattle.sy_text_items.specs.Views.{item_of};
ghost use Rattle.sy_forms_items.specs.Readings.{ReadingGives};
ghost use Rattle.sy_forms_items.specs.Sorts as sorts;
ghost use Rattle.sy_scope_names.specs.Lists as lists;
ghost use Rattle.sy_reply_reader.specs.Seen.{part_in, signature_in};
ghost use Rattle.sy_reply_reader.specs.Signatures as spec;

use crate::part::Part;
use crate::slots::Function;
use std::alloc::Global;
use sy_forms_items::{Named, Names, ReadEnd, read_sort, same_sorts};
use sy_scope_names::{Naming, read_named, sorts_of};
use sy_seq::{Seq, Want};
use sy_terms::{Logic, Sort, same_sort};
use sy_text_items::{Sexp, Sexps};

/// Whether the item is this sort. Abbreviations aren't known.
fn is_read_as(alloc: Global, logic: Logic, sort: Sort, item: &Sexp) -> bool
    ensures { result ≡ spec.is_read_as sort (sorts.read_sort logic [] (item_of item.now)) }
{
    let names = Names::new(alloc);
    let read = read_sort(logic, &names, item);
    drop(names);
    match read {
        Ok(found) => same_sort(&found, &sort),
        Err(_) => false,
    }
}

/// The names with sorts that the items are. Abbreviations aren't known.
fn named_in(alloc: Global, logic: Logic, items: &Sexps) -> Result<Seq<Named>, ReadEnd>
    ensures { ReadingGives (λ named. named) result (lists.read_named [] logic [] [] items.now) }
{
    let names = Names::new(alloc);
    let naming = Naming {
        logic,
        names: &names,
        taken: &[],
    };
    let named = read_named(alloc, &naming, items);
    drop(names);
    named
}

/// The names, where these are their sorts.
fn with_sorts(alloc: Global, takes: &[Sort], named: Seq<Named>) -> Result<Option<Seq<Named>>, Want>
    ensures { IfOk result (λ found. found ≡ spec.with_sorts takes.now (Ok named)) }
{
    let sorts = sorts_of(alloc, named.as_slice())?;
    if same_sorts(sorts.as_slice(), takes) {
        Ok(Some(named))
    } else {
        Ok(None)
    }
}

/// The arguments of a part; `None` exactly where they and its sort don't have the function's sorts, in their order, or
/// the name of an argument is reserved or repeated.
pub(crate) fn arguments_of(
    alloc: Global,
    logic: Logic,
    function: &Function<'_>,
    part: &Part<'_>,
) -> Result<Option<Seq<Named>>, Want>
    ensures { IfOk result (λ found. found ≡ spec.arguments_of logic (signature_in function.now) (part_in part.now)) }
{
    if !is_read_as(alloc, logic, function.gives, part.sort) {
        return Ok(None);
    }
    match named_in(alloc, logic, part.arguments) {
        Ok(named) => with_sorts(alloc, function.takes, named),
        Err(ReadEnd::Refused(_, _)) => Ok(None),
        Err(ReadEnd::Want) => Err(Want {}),
    }
}
