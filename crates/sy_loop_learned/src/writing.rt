// Formulas as terms.
ghost use Rattle.sy_grammar_base.specs.Fits.{ProblemFits};

use crate::grouping::{Group, grouped, ranked};
use crate::ways::{Way, joined};
use crate::learning::setting_of;
use sy_loop_atoms::Atoms;
use sy_loop_bodies::Task;
use sy_terms::{Term, Theory, Value, Want};

/// The conjunction of the clauses as a term, with what clauses share taken out; `None` where a literal has no term.
pub(crate) fn term_of<T: Theory>(
    task: &Task<T>,
    atoms: &Atoms,
    way: Way,
    formula: &[Vec<usize>],
) -> Result<Option<Term<T>>, Want> {
    let mut sizes = Vec::with_capacity(task.alloc, atoms.len())?;
    for literal in 0..atoms.len() {
        sizes.push(atoms.traits(literal).size)?;
    }
    let groups = grouped(task.alloc, sizes.as_slice(), formula)?;
    let mut terms = Vec::with_capacity(task.alloc, groups.len())?;
    for rank in ranked(task.alloc, groups.as_slice())? {
        let Some(group) = groups.get(rank.place) else {
            return Ok(None);
        };
        match group_term(task, atoms, way, group)? {
            Some(term) => terms.push(term)?,
            None => return Ok(None),
        }
    }
    let term = joined(task.alloc, way, true, terms)?;
    Ok(Some(term))
}

/// The conjunction of the group's clauses, in which what they share holds or what is left of each.
fn group_term<T: Theory>(
    task: &Task<T>,
    atoms: &Atoms,
    way: Way,
    group: &Group,
) -> Result<Option<Term<T>>, Want> {
    let mut terms = Vec::with_capacity(task.alloc, group.clauses.len())?;
    for clause in &group.clauses {
        match clause_term(task, atoms, way, clause.as_slice())? {
            Some(term) => terms.push(term)?,
            None => return Ok(None),
        }
    }
    let rest = joined(task.alloc, way, true, terms)?;
    let Some(shared) = group.shared else {
        return Ok(Some(rest));
    };
    let Some(term) = atoms.term::<T>(task.alloc, shared)? else {
        return Ok(None);
    };
    let mut sides = Vec::with_capacity(task.alloc, 2)?;
    sides.push(term)?;
    sides.push(rest)?;
    let term = joined(task.alloc, way, false, sides)?;
    Ok(Some(term))
}

/// The disjunction of the clause's literals.
fn clause_term<T: Theory>(
    task: &Task<T>,
    atoms: &Atoms,
    way: Way,
    clause: &[usize],
) -> Result<Option<Term<T>>, Want> {
    let mut terms = Vec::with_capacity(task.alloc, clause.len())?;
    for literal in clause {
        match atoms.term::<T>(task.alloc, *literal)? {
            Some(term) => terms.push(term)?,
            None => return Ok(None),
        }
    }
    let term = joined(task.alloc, way, false, terms)?;
    Ok(Some(term))
}

/// The formula with two bounds from both sides made an equality, where the grammar has it.
pub(crate) fn with_equalities<T: Theory>(
    task: &Task<T>,
    atoms: &mut Atoms,
    formula: &[Vec<usize>],
) -> Result<Vec<Vec<usize>>, Want>
    requires { ProblemFits T.Theory task.now.problem.now }
{
    let mut clauses: Vec<Vec<usize>> = Vec::with_capacity(task.alloc, formula.len())?;
    for clause in formula {
        let copy = clause.clone()?;
        add_clause(task, atoms, copy, &mut clauses)?;
    }
    Ok(clauses)
}

/// Adds the clause; or where it is a bound whose other side is there, puts the equality in the place of that.
fn add_clause<T: Theory>(
    task: &Task<T>,
    atoms: &mut Atoms,
    clause: Vec<usize>,
    clauses: &mut Vec<Vec<usize>>,
) -> Result<(), Want>
    requires { ProblemFits T.Theory task.now.problem.now }
{
    if let [literal] = clause.as_slice() {
        for other in clauses.iter_mut() {
            if let Some(equality) = equality_of(task, atoms, other.as_slice(), *literal)? {
                *other = Vec::from_elem(task.alloc, equality, 1)?;
                return Ok(());
            }
        }
    }
    clauses.push(clause)?;
    Ok(())
}

/// The equality that the clause says together with the literal; `None` where there is none.
fn equality_of<T: Theory>(
    task: &Task<T>,
    atoms: &mut Atoms,
    clause: &[usize],
    literal: usize,
) -> Result<Option<usize>, Want>
    requires { ProblemFits T.Theory task.now.problem.now }
{
    match clause {
        [other] => atoms.joined(&setting_of(task), *other, literal),
        _ => Ok(None),
    }
}
