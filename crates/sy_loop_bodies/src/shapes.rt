// Rules and kept terms as a scan sees them.
use std::alloc::Global;
use sy_bank_level::Bank;
use sy_grammar_base::{Grammar, Part, Parts, Rule};
use sy_loop_scan::{Pool, Shape};
use sy_terms::{Theory, Want};

/// The rules of the start symbol that apply an operator to one to three nonterminals.
pub(crate) fn shapes_of<T: Theory>(
    alloc: Global,
    grammar: &Grammar<T>,
) -> Result<Vec<Shape>, Want> {
    let mut shapes = Vec::new(alloc);
    let Some(start) = grammar.nons().get(0) else {
        return Ok(shapes);
    };
    let mut number = 0u32;
    for rule in start.rules.as_slice() {
        if let Rule::Term(Part::App(operator, parts)) = rule {
            if let Some(operands) = operands_of(alloc, parts)? {
                shapes.push(Shape {
                    rule: number,
                    operator: *operator,
                    size: 1,
                    operands,
                })?;
            }
        }
        number = number.saturating_add(1);
    }
    Ok(shapes)
}

/// The nonterminals, where the parts are one to three of them and nothing else.
fn operands_of<T: Theory>(alloc: Global, parts: &Parts<T>) -> Result<Option<Vec<u32>>, Want> {
    let parts = parts.as_slice();
    if parts.is_empty() || parts.len() > 3 {
        return Ok(None);
    }
    let mut operands = Vec::with_capacity(alloc, parts.len())?;
    for part in parts {
        match part {
            Part::Non(nonterminal) => operands.push(*nonterminal)?,
            _ => return Ok(None),
        }
    }
    Ok(Some(operands))
}

/// The kept terms of each nonterminal, by size and then in the order in which they were found.
pub(crate) fn pools_of<T: Theory>(
    alloc: Global,
    grammar: &Grammar<T>,
    bank: &Bank<T>,
) -> Result<Vec<Pool>, Want> {
    let mut pools = Vec::new(alloc);
    let mut number = 0u32;
    for non in grammar.nons().as_slice() {
        let mut sizes = Vec::new(alloc);
        for size in 0..u64::from(bank.upto()) + 1 {
            for kept in bank.kept(number, size as u32) {
                sizes.push(kept.size)?;
            }
        }
        pools.push(Pool {
            sort: non.sort,
            sizes,
        })?;
        number = number.saturating_add(1);
    }
    Ok(pools)
}
