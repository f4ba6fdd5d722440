// Plans of bodies that choose, and the terms that they give.
use crate::rules::{RuleValues, rules_of};
use crate::tables::{complete_size, pools_of};
use std::alloc::Global;
use sy_bank_level::{Bank, filled_part};
use sy_grammar_base::Grammar;
use sy_loop_bodies::kept_at;
use sy_loop_choices::{Node, Plan, Shape, Task, below, choose};
use sy_terms::{Defs, Term, Theory, Want};

/// How many choices are few.
const FEW_CHOICES: u32 = 8;

/// Which bodies are looked for: those that choose little, those that choose, and those below known operations or else
/// these.
#[derive(Clone, Copy, PartialEq, Eq)]
pub(crate) enum Breadth {
    Few,
    Many,
    Deep,
}

/// A body with these values at the bank's points, of at most this size; `None` where none was found.
pub(crate) fn planned_term<T: Theory>(
    alloc: Global,
    grammar: &Grammar<T>,
    defs: &Defs<T>,
    bank: &Bank<T>,
    words: Vec<u64>,
    breadth: Breadth,
    most: u32,
) -> Result<Option<Term<T>>, Want> {
    let (shapes, rules) = rules_of(alloc, grammar, defs, bank.points())?;
    if breadth != Breadth::Deep && !may_choose(shapes.as_slice()) {
        return Ok(None);
    }
    let pools = pools_of(alloc, grammar, bank)?;
    let complete = complete_size(pools.as_slice());
    let task = Task {
        pools,
        shapes,
        wanted: words,
        complete,
    };
    let Some(plan) = plan_of(alloc, &rules, &task, breadth)? else {
        return Ok(None);
    };
    if plan.size > most {
        return Ok(None);
    }
    term_of(alloc, grammar, bank, task.shapes.as_slice(), &plan)
}

/// Whether a rule of the start symbol has parts enough to choose: two between which it does, and one that says where.
fn may_choose(shapes: &[Shape]) -> bool {
    for shape in shapes {
        if shape.pool == 0 && shape.operands.len() > 2 {
            return true;
        }
    }
    false
}

/// A plan of a body with the wanted values; `None` where none was found.
fn plan_of<T: Theory>(
    alloc: Global,
    rules: &RuleValues<'_, T>,
    task: &Task,
    breadth: Breadth,
) -> Result<Option<Plan>, Want> {
    if breadth == Breadth::Deep {
        let deep = below(alloc, &*rules, &*task)?;
        if deep.is_some() {
            return Ok(deep);
        }
    }
    let chosen = choose(alloc, &*rules, &*task)?;
    if breadth == Breadth::Few && !chooses_little(&chosen) {
        return Ok(None);
    }
    Ok(chosen)
}

/// Whether there is a plan that doesn't choose often.
fn chooses_little(plan: &Option<Plan>) -> bool {
    match plan {
        Some(plan) => plan.choices <= FEW_CHOICES,
        None => false,
    }
}

/// The term that the plan's last step gives; `None` where a step is of no kept term or rule.
fn term_of<T: Theory>(
    alloc: Global,
    grammar: &Grammar<T>,
    bank: &Bank<T>,
    shapes: &[Shape],
    plan: &Plan,
) -> Result<Option<Term<T>>, Want> {
    let mut terms = Vec::with_capacity(alloc, plan.nodes.len())?;
    for node in plan.nodes.as_slice() {
        match step_term(alloc, grammar, bank, shapes, node, terms.as_slice())? {
            Some(term) => terms.push(term)?,
            None => return Ok(None),
        }
    }
    Ok(terms.pop())
}

/// The term that the step gives over those of earlier ones.
fn step_term<T: Theory>(
    alloc: Global,
    grammar: &Grammar<T>,
    bank: &Bank<T>,
    shapes: &[Shape],
    node: &Node,
    terms: &[Term<T>],
) -> Result<Option<Term<T>>, Want> {
    match node {
        Node::Kept { pool, place } => match kept_at(bank, *pool, *place) {
            Some(kept) => {
                let term = kept.term(alloc)?;
                Ok(Some(term))
            }
            None => Ok(None),
        },
        Node::Rule { shape, parts } => match shapes.get(*shape) {
            Some(shape) => rule_term(alloc, grammar, shape, parts.as_slice(), terms),
            None => Ok(None),
        },
    }
}

/// What the shape's rule gives of the terms of these places.
fn rule_term<T: Theory>(
    alloc: Global,
    grammar: &Grammar<T>,
    shape: &Shape,
    places: &[usize],
    terms: &[Term<T>],
) -> Result<Option<Term<T>>, Want> {
    let Some(part) = grammar.part(shape.pool, shape.rule) else {
        return Ok(None);
    };
    let mut chosen = Vec::with_capacity(alloc, places.len())?;
    for place in places {
        let Some(term) = terms.get(*place) else {
            return Ok(None);
        };
        let copy = term.copy(alloc)?;
        chosen.push(copy)?;
    }
    let term = filled_part(alloc, part, chosen.as_slice())?;
    Ok(Some(term))
}
