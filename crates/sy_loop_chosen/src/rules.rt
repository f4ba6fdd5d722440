// The grammar's rules as terms, and their values over columns.
use crate::values::{value_of, words_at};
use std::alloc::Global;
use sy_bank_level::filled_part;
use sy_grammar_base::{Grammar, Part, Rule};
use sy_loop_choices::{Rules, Shape};
use sy_terms::{Defs, Op, Seq, Sort, Term, Theory, Values, Want, copied_values};

/// The most parts of a rule that is tried.
const MOST_PARTS: usize = 5;

/// Up to how many nodes of a rule are counted.
const MOST_NODES: u64 = 1_000_000;

/// A rule over the function's arguments and its own parts behind them: as a term, with the sorts of both.
#[derive(Drop)]
struct RuleTerm<T: Theory> {
    term: Term<T>,
    sorts: Vec<Sort>,
}

/// The rules of a grammar that have parts, under definitions and at points.
#[derive(Drop)]
pub(crate) struct RuleValues<'a, T: Theory> {
    defs: &'a Defs<T>,
    points: &'a [Values<T>],
    rules: Vec<RuleTerm<T>>,
}

/// The rules of all nonterminals that have one to five parts, of those with two the quick ones, and their values at the
/// points.
pub(crate) fn rules_of<'a, T: Theory>(
    alloc: Global,
    grammar: &Grammar<T>,
    defs: &'a Defs<T>,
    points: &'a [Values<T>],
) -> Result<(Vec<Shape>, RuleValues<'a, T>), Want> {
    let mut shapes = Vec::new(alloc);
    let mut rules = Vec::new(alloc);
    let mut pool = 0u32;
    for non in grammar.nons().as_slice() {
        let mut number = 0u32;
        for rule in non.rules.as_slice() {
            if let Rule::Term(part) = rule {
                if let Some((shape, rule)) = tried_rule(alloc, grammar, pool, number, part)? {
                    shapes.push(shape)?;
                    rules.push(rule)?;
                }
            }
            number = number.saturating_add(1);
        }
        pool = pool.saturating_add(1);
    }
    let values = RuleValues {
        defs,
        points,
        rules,
    };
    Ok((shapes, values))
}

/// The rule of this number of a nonterminal, as choices see it and as a term; `None` where it isn't tried.
fn tried_rule<T: Theory>(
    alloc: Global,
    grammar: &Grammar<T>,
    pool: u32,
    rule: u32,
    part: &Part<T>,
) -> Result<Option<(Shape, RuleTerm<T>)>, Want> {
    let operands = operands_of(alloc, part)?;
    if !is_tried(part, operands.len()) {
        return Ok(None);
    }
    let Some(sorts) = sorts_with(alloc, grammar, operands.as_slice())? else {
        return Ok(None);
    };
    let term = rule_term(alloc, part, grammar.args().len(), operands.len())?;
    let own = term.size(MOST_NODES).saturating_sub(operands.len() as u64);
    let shape = Shape {
        pool,
        rule,
        size: u32::try_from(own).unwrap_or(u32::MAX),
        operands,
    };
    Ok(Some((shape, RuleTerm { term, sorts })))
}

/// The nonterminals of the rule's parts, from left to right, at most one more than are tried.
fn operands_of<T: Theory>(alloc: Global, part: &Part<T>) -> Result<Vec<u32>, Want> {
    let mut operands = Vec::new(alloc);
    for place in 0..=MOST_PARTS {
        if let Ok(nonterminal) = part.occurrence(place) {
            operands.push(nonterminal)?;
        }
    }
    Ok(operands)
}

/// The sorts of the function's arguments, and behind them those of the nonterminals; `None` where one isn't the
/// grammar's.
fn sorts_with<T: Theory>(
    alloc: Global,
    grammar: &Grammar<T>,
    operands: &[u32],
) -> Result<Option<Vec<Sort>>, Want> {
    let mut sorts = Vec::from_slice(alloc, grammar.args().as_slice())?;
    for nonterminal in operands {
        match grammar.nons().get(*nonterminal as usize) {
            Some(non) => sorts.push(non.sort)?,
            None => return Ok(None),
        }
    }
    Ok(Some(sorts))
}

/// What the rule gives of variables that stand behind so many arguments.
fn rule_term<T: Theory>(
    alloc: Global,
    part: &Part<T>,
    arguments: usize,
    count: usize,
) -> Result<Term<T>, Want> {
    let mut places = Vec::new(alloc);
    for number in 0..count {
        let position = u32::try_from(arguments.saturating_add(number)).unwrap_or(u32::MAX);
        places.push(Term::Var(position))?;
    }
    filled_part(alloc, part, places.as_slice())
}

/// Whether the rule of this part, with so many nonterminals, is tried. Those of two are tried over thousands of pairs
/// of columns, so among them the ones alone whose values are quickly had.
fn is_tried<T: Theory>(part: &Part<T>, count: usize) -> bool {
    match count {
        0 => false,
        2 => is_quick(part),
        _ => count <= MOST_PARTS,
    }
}

/// Whether the part is an operator whose values over two columns are quickly had.
fn is_quick<T: Theory>(part: &Part<T>) -> bool {
    match part {
        Part::App(operator, _) => match operator {
            Op::Add | Op::Sub | Op::BvAdd | Op::BvSub | Op::BvAnd | Op::BvOr | Op::BvXor => true,
            _ => false,
        },
        _ => false,
    }
}

impl<'a, T: Theory> Rules for RuleValues<'a, T> {
    fn values(
        &self,
        alloc: Global,
        shape: usize,
        parts: &[&[u64]],
    ) -> Result<Option<Vec<u64>>, Want> {
        let Some(rule) = self.rules.get(shape) else {
            return Ok(None);
        };
        let Some(first) = parts.first() else {
            return Ok(None);
        };
        let count = first.len().min(self.points.len());
        let mut tuples = Vec::with_capacity(alloc, count)?;
        for point in 0..count {
            let Some(tuple) = tuple_at(alloc, rule, &self.points[point], point, parts)? else {
                return Ok(None);
            };
            tuples.push(tuple)?;
        }
        words_at(
            alloc,
            self.defs,
            rule.sorts.as_slice(),
            tuples.as_slice(),
            &rule.term,
        )
    }
}

/// The point, and behind it what the rule's parts have there; `None` where one has no such value.
fn tuple_at<T: Theory>(
    alloc: Global,
    rule: &RuleTerm<T>,
    arguments: &Values<T>,
    point: usize,
    parts: &[&[u64]],
) -> Result<Option<Values<T>>, Want> {
    let mut tuple: Values<T> = copied_values::<T>(alloc, arguments.as_slice())?;
    for part in parts {
        let Some(sort) = rule.sorts.get(tuple.len()) else {
            return Ok(None);
        };
        let Some(word) = part.get(point) else {
            return Ok(None);
        };
        let Some(value) = value_of::<T>(*sort, *word) else {
            return Ok(None);
        };
        tuple.push(value)?;
    }
    Ok(Some(tuple))
}
