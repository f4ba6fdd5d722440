// Variables of a term that are compared with each other.
use std::alloc::Global;
use sy_terms::{Op, Term, Terms, Theory, Want};

/// The most variables of which facts are told.
const MOST: usize = 8;

/// Three variables, each of which is compared with the other two.
#[derive(Clone, Copy)]
pub(crate) struct Triple {
    pub(crate) first: u32,
    pub(crate) second: u32,
    pub(crate) third: u32,
}

/// Two variables that are compared.
#[derive(Clone, Copy, PartialEq, Eq)]
struct Pair {
    lesser: u32,
    greater: u32,
}

/// Pairs of the variables below `count` that the term compares as unsigned numbers, each once, and these variables.
#[derive(Drop)]
struct Compared {
    count: u32,
    pairs: Vec<Pair>,
    variables: Vec<u32>,
}

/// All triples of the variables below `count` that the term compares with each other.
pub(crate) fn triples<T: Theory>(
    alloc: Global,
    count: u32,
    term: &Term<T>,
) -> Result<Vec<Triple>, Want> {
    let mut compared = Compared {
        count,
        pairs: Vec::new(alloc),
        variables: Vec::new(alloc),
    };
    compared.gather(term)?;
    compared.triples(alloc)
}

impl Compared {
    /// Adds the pairs that the term compares.
    #[cycle(gather)]
    fn gather<T: Theory>(&mut self, term: &Term<T>) -> Result<(), Want> {
        match term {
            Term::Const(_) => Ok(()),
            Term::Var(_) => Ok(()),
            Term::App(operator, arguments) => {
                if is_order(*operator) {
                    self.note(arguments)?;
                }
                self.gather_all(arguments)
            }
            Term::Call(_, arguments) => self.gather_all(arguments),
            Term::Let(bound, inner) => {
                self.gather_all(bound)?;
                self.gather(inner)
            }
        }
    }

    /// Adds the pairs that the terms compare.
    #[cycle(gather)]
    fn gather_all<T: Theory>(&mut self, terms: &Terms<T>) -> Result<(), Want> {
        for term in terms.as_slice() {
            self.gather(term)?;
        }
        Ok(())
    }

    /// Adds the pair of the first two terms, where they are two variables.
    fn note<T: Theory>(&mut self, terms: &Terms<T>) -> Result<(), Want> {
        let (Some(Term::Var(a)), Some(Term::Var(b))) = (terms.get(0), terms.get(1)) else {
            return Ok(());
        };
        let pair = pair_of(*a, *b);
        if *a == *b || pair.greater >= self.count || self.pairs.contains(&pair) {
            return Ok(());
        }
        if self.add(*a)? && self.add(*b)? {
            self.pairs.push(pair)?;
        }
        Ok(())
    }

    /// Adds the variable, unless it is there; whether it is now. There may be so many.
    fn add(&mut self, variable: u32) -> Result<bool, Want> {
        if self.variables.contains(&variable) {
            return Ok(true);
        }
        if self.variables.len() >= MOST {
            return Ok(false);
        }
        self.variables.push(variable)?;
        Ok(true)
    }

    /// Whether the two are compared.
    fn has(&self, a: u32, b: u32) -> bool {
        self.pairs.contains(&pair_of(a, b))
    }

    /// All triples of variables that are compared with each other.
    fn triples(&self, alloc: Global) -> Result<Vec<Triple>, Want> {
        let mut triples = Vec::new(alloc);
        for first in self.variables.as_slice() {
            for second in self.variables.as_slice() {
                for third in self.variables.as_slice() {
                    if self.has(*first, *second)
                        && self.has(*second, *third)
                        && self.has(*first, *third)
                    {
                        triples.push(Triple {
                            first: *first,
                            second: *second,
                            third: *third,
                        })?;
                    }
                }
            }
        }
        Ok(triples)
    }
}

/// The pair of the two.
fn pair_of(a: u32, b: u32) -> Pair {
    Pair {
        lesser: a.min(b),
        greater: a.max(b),
    }
}

/// Whether the operator says in which order two unsigned numbers stand.
fn is_order(operator: Op) -> bool {
    matches!(operator, Op::BvUlt | Op::BvUle | Op::BvUgt | Op::BvUge)
}
