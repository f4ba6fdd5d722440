// Terms that rules of the start symbol give of kept terms.
ghost use Rattle.std.specs.Prelude.{◌≡◌, length, IfOk, IfSome, IsTrue};
ghost use Rattle.sy_terms.specs.Denoted.{expr_of};
ghost use Rattle.sy_grammar_base.specs.Fits.{ProblemFits};
ghost use Rattle.sy_loop_bodies.specs.Clauses.{IsSmallFor};

use crate::body::Task;
use sy_bank_level::{Bank, Kept, filled_part};
use sy_grammar::derive;
use sy_grammar_sizes::derivation_size;
use sy_terms::{Term, Theory, Want};

/// What the start symbol's rule of this number gives of kept terms: for each nonterminal in it, from left to right, the
/// one of this place among the bank's terms for it. `None` where there is no such rule or term, or where a derivation
/// of what it gives is larger than the bound.
pub(crate) fn guessed_term<T: Theory>(
    task: &Task<T>,
    bank: &Bank<T>,
    rule: u32,
    places: &[usize],
) -> Result<Option<Term<T>>, Want>
    requires problem { ProblemFits T.Theory task.now.problem.now }
    requires one { length task.now.problem.now.wanted ≡ 1 }
    ensures { IfOk result (λ found.
        IfSome found (λ term. IsSmallFor T.Theory task.now.problem.now task.now.bound (expr_of T.denotes term))) }
{
    let Some(term) = filled_rule(task, bank, rule, places)? else {
        return Ok(None);
    };
    let small = is_small(task, &term)?;
    if small { Ok(Some(term)) } else { Ok(None) }
}

/// Whether the derivation of the term that is found has a size within the bound.
pub fn is_small<T: Theory>(task: &Task<T>, term: &Term<T>) -> Result<bool, Want>
    requires problem { ProblemFits T.Theory task.now.problem.now }
    requires one { length task.now.problem.now.wanted ≡ 1 }
    ensures { IfOk result (λ small. IsTrue small →
        IsSmallFor T.Theory task.now.problem.now task.now.bound (expr_of T.denotes term.now)) }
{
    let Some(wanted) = task.problem.wanted.get(0) else {
        return Ok(false);
    };
    let found = derive(task.alloc, &wanted.grammar, 0, term)?;
    let Some(derivation) = found else {
        return Ok(false);
    };
    let most = task.bound.saturating_add(1);
    let size = derivation_size(&wanted.grammar, 0, &derivation, &task.problem.pool, most);
    drop(derivation);
    if size >= most {
        return Ok(false);
    }
    Ok(true)
}

/// What the rule gives of the kept terms of these places; `None` where there is no such rule or term.
fn filled_rule<T: Theory>(
    task: &Task<T>,
    bank: &Bank<T>,
    rule: u32,
    places: &[usize],
) -> Result<Option<Term<T>>, Want> {
    let Some(wanted) = task.problem.wanted.get(0) else {
        return Ok(None);
    };
    let Some(part) = wanted.grammar.part(0, rule) else {
        return Ok(None);
    };
    let mut terms = Vec::with_capacity(task.alloc, places.len())?;
    for place in places {
        let Ok(nonterminal) = part.occurrence(terms.len()) else {
            return Ok(None);
        };
        let Some(kept) = kept_at(bank, nonterminal, *place) else {
            return Ok(None);
        };
        let term = kept.term(task.alloc)?;
        terms.push(term)?;
    }
    let term = filled_part(task.alloc, part, terms.as_slice())?;
    Ok(Some(term))
}

/// The kept term of this place among those of the nonterminal, by size and then in the order in which they were found.
pub fn kept_at<T: Theory>(bank: &Bank<T>, nonterminal: u32, place: usize) -> Option<&Kept<T>> {
    let mut left = place;
    for size in 0..u64::from(bank.upto()) + 1 {
        let kept = bank.kept(nonterminal, size as u32);
        if left < kept.len() {
            return kept.get(left);
        }
        left -= kept.len();
    }
    None
}
