// Terms with their bindings written out, as subterms.
ghost use Rattle.std.specs.Prelude.{◌≡◌, ℕ, ◌<◌, List, ◌++◌, length, IfOk};
ghost use Rattle.sy_terms.specs.Denoted.{expr_of, exprs_of};
ghost use Rattle.sy_terms.specs.Expr.{Variable};
ghost use Rattle.sy_terms.specs.declared.sort.Sort.{Sort};
ghost use Rattle.sy_loop_spec.specs.WrittenOut.{written as written_term, variables_from};
ghost use Rattle.sy_loop_pointwise.specs.Shapes.{AreBelow, IsNumberOf, AreNumbered, subterms, term_of};

use crate::shape::Shape;
use crate::table::Table;
use std::alloc::{AllocError, Global};
use sy_terms::{Seq, Term, Terms, Theory, Value, Want};

/// The subterms of the term with its bindings written out, over so many variables, and the term's own number. `Want`
/// comes where memory runs out, and where 32 bits don't count the variables and other subterms.
pub fn written<T: Theory>(
    alloc: Global,
    variables: usize,
    term: &Term<T>,
) -> Result<(Table<T>, u32), Want>
    ensures within { IfOk result (λ made. made.1 < length made.0) }
    ensures is { IfOk result (λ made. (sorts : List Sort) → length sorts ≡ variables →
        term_of (subterms made.0) made.1 ≡ written_term (variables_from 0 sorts) (expr_of T.denotes term.now)) }
{
    let mut table = Table::new(alloc);
    let mut names = Vec::new(alloc);
    for position in 0..variables {
        let Ok(position) = u32::try_from(position) else {
            return Err(AllocError);
        };
        let number = table.number(alloc, Shape::Var(position))?;
        names.push(number)?;
    }
    let number = number_of(alloc, &mut table, names.as_slice(), term)?;
    Ok((table, number))
}

/// The number of the term with its bindings written out, where the subterms of these numbers stand for the names in
/// force.
#[cycle(writing)]
fn number_of<T: Theory>(
    alloc: Global,
    table: &mut Table<T>,
    names: &[u32],
    term: &Term<T>,
) -> Result<u32, Want>
    requires names { AreBelow (length table.old) names.now }
    ensures { IfOk result (λ number. IsNumberOf table.old table.new names.now (expr_of T.denotes term.now) number) }
{
    match term {
        Term::Const(value) => {
            let number = table.number(alloc, Shape::Const(*value))?;
            Ok(number)
        }
        Term::Var(position) => {
            let number = named(alloc, table, names, *position)?;
            Ok(number)
        }
        Term::App(operator, arguments) => {
            let numbers = numbers_of(alloc, table, names, arguments)?;
            let number = table.number(alloc, Shape::App(*operator, numbers))?;
            Ok(number)
        }
        Term::Call(function, arguments) => {
            let numbers = numbers_of(alloc, table, names, arguments)?;
            let number = table.number(alloc, Shape::Call(*function, numbers))?;
            Ok(number)
        }
        Term::Let(bound, inner) => {
            let numbers = numbers_of(alloc, table, names, bound)?;
            let longer = joined(alloc, names, numbers.as_slice())?;
            let number = number_of(alloc, table, longer.as_slice(), inner)?;
            Ok(number)
        }
    }
}

/// The numbers of the terms, one after the other.
#[cycle(writing)]
fn numbers_of<T: Theory>(
    alloc: Global,
    table: &mut Table<T>,
    names: &[u32],
    terms: &Terms<T>,
) -> Result<Seq<u32>, Want>
    requires names { AreBelow (length table.old) names.now }
    ensures { IfOk result (λ numbers.
        AreNumbered table.old table.new names.now (exprs_of T.denotes terms.now.items.items) numbers) }
{
    let mut numbers = Seq::new(alloc);
    for term in terms.as_slice() {
        let number = number_of(alloc, table, names, term)?;
        numbers.push(number)?;
    }
    Ok(numbers)
}

/// The number of the name at the position; that of the constant `false` where there is none.
fn named<T: Theory>(
    alloc: Global,
    table: &mut Table<T>,
    names: &[u32],
    position: u32,
) -> Result<u32, Want>
    requires names { AreBelow (length table.old) names.now }
    ensures { IfOk result (λ number. IsNumberOf table.old table.new names.now (Variable position) number) }
{
    match names.get(position as usize) {
        Some(number) => Ok(*number),
        None => {
            let number = table.number(alloc, Shape::Const(Value::Truth(false)))?;
            Ok(number)
        }
    }
}

/// One list after the other.
fn joined(alloc: Global, first: &[u32], second: &[u32]) -> Result<Vec<u32>, Want>
    ensures { IfOk result (λ all. all.items ≡ first.now ++ second.now) }
{
    let mut all = Vec::new(alloc);
    all.extend_from_slice(first)?;
    all.extend_from_slice(second)?;
    Ok(all)
}
