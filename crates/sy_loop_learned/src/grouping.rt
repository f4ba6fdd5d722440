// Formulas with what several clauses share taken out.
use std::alloc::Global;
use sy_terms::Want;

/// Clauses that share a literal, which is taken out of them; or one clause.
#[derive(Drop)]
pub(crate) struct Group {
    pub(crate) shared: Option<usize>,
    pub(crate) clauses: Vec<Vec<usize>>,
    /// The size that it has as a term.
    pub(crate) size: u64,
}

/// A group's place, by which groups are ordered: the smallest first.
#[derive(Clone, Copy, PartialEq, Eq, PartialOrd, Ord)]
pub(crate) struct Rank {
    pub(crate) size: u64,
    pub(crate) place: usize,
}

/// The clauses in groups; the sizes of literals stand under their numbers.
pub(crate) fn grouped(
    alloc: Global,
    sizes: &[u32],
    formula: &[Vec<usize>],
) -> Result<Vec<Group>, Want> {
    let mut groups = Vec::new(alloc);
    let mut left = Vec::with_capacity(alloc, formula.len())?;
    for clause in formula {
        left.push(clause.clone()?)?;
    }
    for _ in 0..formula.len() {
        let Some(shared) = most_shared(sizes, left.as_slice()) else {
            break;
        };
        let (with, others) = divided(alloc, shared, left)?;
        groups.push(group_of(sizes, Some(shared), with))?;
        left = others;
    }
    for clause in left {
        let mut clauses = Vec::with_capacity(alloc, 1)?;
        clauses.push(clause)?;
        groups.push(group_of(sizes, None, clauses))?;
    }
    Ok(groups)
}

/// The group of these clauses.
fn group_of(sizes: &[u32], shared: Option<usize>, clauses: Vec<Vec<usize>>) -> Group {
    let mut size = match shared {
        Some(literal) => size_at(sizes, literal).saturating_add(1),
        None => 0,
    };
    for clause in &clauses {
        for literal in clause {
            size = size
                .saturating_add(size_at(sizes, *literal))
                .saturating_add(1);
        }
    }
    Group {
        shared,
        clauses,
        size,
    }
}

/// The size of the literal.
fn size_at(sizes: &[u32], literal: usize) -> u64 {
    match sizes.get(literal) {
        Some(size) => u64::from(*size),
        None => 0,
    }
}

/// The literal by which most is saved where it is taken out of clauses of several literals; the first of such.
fn most_shared(sizes: &[u32], clauses: &[Vec<usize>]) -> Option<usize> {
    let mut found = None;
    let mut most = 0u64;
    for clause in clauses {
        if clause.len() < 2 {
            continue;
        }
        for literal in clause {
            let saved = saved_by(sizes, clauses, *literal);
            if saved > most {
                most = saved;
                found = Some(*literal);
            }
        }
    }
    found
}

/// By how much terms become smaller where the literal is taken out of clauses of several literals.
fn saved_by(sizes: &[u32], clauses: &[Vec<usize>], literal: usize) -> u64 {
    let mut count = 0u64;
    for clause in clauses {
        if clause.len() > 1 && clause.contains(&literal) {
            count = count.saturating_add(1);
        }
    }
    let each = size_at(sizes, literal).saturating_add(1);
    count.saturating_sub(1).saturating_mul(each)
}

/// What is left of the clauses of several literals that have the literal, and the others.
fn divided(
    alloc: Global,
    literal: usize,
    clauses: Vec<Vec<usize>>,
) -> Result<(Vec<Vec<usize>>, Vec<Vec<usize>>), Want> {
    let mut with = Vec::new(alloc);
    let mut others = Vec::new(alloc);
    for clause in clauses {
        if clause.len() > 1 && clause.contains(&literal) {
            with.push(without(alloc, literal, clause.as_slice())?)?;
        } else {
            others.push(clause)?;
        }
    }
    Ok((with, others))
}

/// The clause without the literal.
fn without(alloc: Global, literal: usize, clause: &[usize]) -> Result<Vec<usize>, Want> {
    let mut left = Vec::with_capacity(alloc, clause.len())?;
    for other in clause {
        if *other != literal {
            left.push(*other)?;
        }
    }
    Ok(left)
}

/// The places of the groups, the smallest first.
pub(crate) fn ranked(alloc: Global, groups: &[Group]) -> Result<Vec<Rank>, Want> {
    let mut ranks = Vec::with_capacity(alloc, groups.len())?;
    for (place, group) in groups.iter().enumerate() {
        ranks.push(Rank {
            size: group.size,
            place,
        })?;
    }
    ranks.sort()?;
    Ok(ranks)
}
