// What a path tells of the applications in a query, and the open tests that they ask for.
use crate::tables::{Literal, Operation, Tables};
use crate::truths::{Sight, all_of, any_of, are_settled, different, implied, odd, same};
use crate::zones::Zones;
use std::alloc::Global;
use sy_linear_known::{Fact, Form, Test};
use sy_seq::Want;
use sy_terms::{Op, Sort};

/// An open test, and the node that asks for it.
#[derive(Clone, Copy)]
pub(crate) struct Occurrence {
    pub(crate) test: usize,
    pub(crate) node: usize,
}

/// The sight at this place; nothing where there is none.
fn sight_at(sights: &[Sight], place: usize) -> Sight {
    match sights.get(place) {
        Some(sight) => *sight,
        None => Sight::Open,
    }
}

/// What is told of the operation on two terms of which this is told.
fn computed(
    tables: &mut Tables,
    alloc: Global,
    operation: Operation,
    first: Sight,
    second: Sight,
) -> Result<Sight, Want> {
    let (Sight::Linear(a), Sight::Linear(b)) = (first, second) else {
        return Ok(Sight::Open);
    };
    match tables.computed(alloc, operation, a, b)? {
        Some(number) => Ok(Sight::Linear(number)),
        None => Ok(Sight::Open),
    }
}

/// What is told of the sum of the terms of which this is told. It is built by halves: the tables keep the sums on the
/// way too, and from the left these would take memory by the square of the number of terms.
fn summed(tables: &mut Tables, alloc: Global, sights: &[Sight]) -> Result<Sight, Want> {
    if sights.len() < 2 {
        return Ok(sight_at(sights, 0));
    }
    let (left, right) = sights.split_at(sights.len() / 2);
    let left = summed(tables, alloc, left)?;
    let right = summed(tables, alloc, right)?;
    computed(tables, alloc, Operation::Sum, left, right)
}

/// What is told of the first of the terms of which this is told, less all others.
fn lessened(tables: &mut Tables, alloc: Global, sights: &[Sight]) -> Result<Sight, Want> {
    match sights.split_first() {
        Some((first, [])) => Ok(*first),
        Some((first, others)) => {
            let sum = summed(tables, alloc, others)?;
            computed(tables, alloc, Operation::Difference, *first, sum)
        }
        None => Ok(Sight::Open),
    }
}

/// What is told of the product of the terms of which this is told.
fn multiplied(tables: &mut Tables, alloc: Global, sights: &[Sight]) -> Result<Sight, Want> {
    let mut product = sight_at(sights, 0);
    for place in 1..sights.len() {
        let factor = sight_at(sights, place);
        product = computed(tables, alloc, Operation::Product, product, factor)?;
    }
    Ok(product)
}

/// What is told of the opposite of a number.
fn negated(tables: &mut Tables, alloc: Global, sights: &[Sight]) -> Result<Sight, Want> {
    let nothing = Sight::Linear(tables.constant(alloc, 0)?);
    let number = sight_at(sights, 0);
    computed(tables, alloc, Operation::Difference, nothing, number)
}

/// The tests of a query, what a path tells of them, and those that it leaves open.
#[derive(Drop)]
pub(crate) struct Asking {
    pub(crate) tables: Tables,
    /// What is told of the variables by no fact. Tests on variables of truth values have the numbers of these; those on
    /// forms come after them.
    pub(crate) variables: Vec<Sight>,
    /// What the path tells of the tests.
    pub(crate) truths: Vec<Option<bool>>,
    /// The open tests below the nodes that aren't known, in the order of a walk.
    pub(crate) listed: Vec<Occurrence>,
}

impl Asking {
    /// Nothing. It takes no memory.
    pub(crate) fn new(alloc: Global) -> Asking {
        Asking {
            tables: Tables::new(alloc),
            variables: Vec::new(alloc),
            truths: Vec::new(alloc),
            listed: Vec::new(alloc),
        }
    }

    /// Takes down what is told of the variables.
    pub(crate) fn add_variables(&mut self, alloc: Global, sorts: &[Sort]) -> Result<(), Want> {
        let mut number = 0u32;
        for sort in sorts {
            let sight = match sort {
                Sort::Int => Sight::Linear(self.tables.variable(alloc, number)?),
                Sort::Bool | Sort::Bits(_) => Sight::Open,
            };
            self.variables.push(sight)?;
            number = number.saturating_add(1);
        }
        Ok(())
    }

    /// How many tests there are.
    pub(crate) fn tests(&self) -> usize {
        self.variables.len().saturating_add(self.tables.tests())
    }

    /// The test whether the form is at least 0, and whether that is so where it holds.
    fn find(&self, alloc: Global, form: &Form) -> Result<Option<(usize, bool)>, Want> {
        match self.tables.find(alloc, form)? {
            Some((number, truth)) => Ok(Some((number.saturating_add(self.variables.len()), truth))),
            None => Ok(None),
        }
    }

    /// Notes what the facts tell of the tests.
    pub(crate) fn take(&mut self, alloc: Global, facts: &[Fact]) -> Result<(), Want> {
        let tests = self.tests();
        self.truths.clear();
        self.truths.resize(tests, None)?;
        for fact in facts {
            let told = match fact {
                Fact::AtLeast(form) => self.find(alloc, form)?,
                Fact::Is(variable, truth) => Some((*variable as usize, *truth)),
            };
            if let Some((test, truth)) = told
                && let Some(known) = self.truths.get_mut(test)
            {
                *known = Some(truth);
            }
        }
        Ok(())
    }

    /// The test of this number.
    pub(crate) fn test(&self, alloc: Global, number: usize) -> Result<Option<Test>, Want> {
        match number.checked_sub(self.variables.len()) {
            Some(place) => self.tables.test(alloc, place),
            None => match u32::try_from(number) {
                Ok(variable) => Ok(Some(Test::Holds(variable))),
                Err(_) => Ok(None),
            },
        }
    }

    /// Whether the bounds on differences of variables tell the test.
    fn is_told(&self, zones: &Zones, test: usize) -> bool {
        let Some(number) = test.checked_sub(self.variables.len()) else {
            return false;
        };
        match self.tables.form(number) {
            Some(form) => zones.told(form).is_some(),
            None => false,
        }
    }

    /// The first listed test that these bounds tell.
    pub(crate) fn forced(&self, zones: &Zones) -> Option<usize> {
        for occurrence in self.listed.as_slice() {
            if self.is_told(zones, occurrence.test) {
                return Some(occurrence.test);
            }
        }
        None
    }

    /// What is told of the test, which the node asks for: an open one is listed.
    fn asked(&mut self, test: usize, node: usize) -> Result<Sight, Want> {
        if let Some(Some(truth)) = self.truths.get(test) {
            return Ok(Sight::Settled(*truth));
        }
        self.listed.push(Occurrence { test, node })?;
        Ok(Sight::Open)
    }

    /// What is told of a comparison of two forms, which the node asks for.
    fn tested(
        &mut self,
        alloc: Global,
        node: usize,
        operation: Operation,
        first: usize,
        second: usize,
    ) -> Result<Sight, Want> {
        match self.tables.compared(alloc, operation, first, second)? {
            Literal::Known(truth) => Ok(Sight::Settled(truth)),
            Literal::Unfit => Ok(Sight::Open),
            Literal::Test(number, holds) => {
                let test = number.saturating_add(self.variables.len());
                let sight = self.asked(test, node)?;
                if holds {
                    Ok(sight)
                } else {
                    Ok(sight.opposite())
                }
            }
        }
    }

    /// What is told of a comparison of two terms, which the node asks for.
    fn compared(
        &mut self,
        alloc: Global,
        node: usize,
        operator: &Op,
        first: Sight,
        second: Sight,
    ) -> Result<Sight, Want> {
        let (Sight::Linear(a), Sight::Linear(b)) = (first, second) else {
            return Ok(Sight::Open);
        };
        match operator {
            Op::Le => self.tested(alloc, node, Operation::AtLeast, b, a),
            Op::Lt => self.tested(alloc, node, Operation::Above, b, a),
            Op::Ge => self.tested(alloc, node, Operation::AtLeast, a, b),
            Op::Gt => self.tested(alloc, node, Operation::Above, a, b),
            Op::Equal | Op::Distinct => {
                let above = self.tested(alloc, node, Operation::AtLeast, a, b)?;
                let below = self.tested(alloc, node, Operation::AtLeast, b, a)?;
                let equal = above.and(below);
                if matches!(operator, Op::Equal) {
                    Ok(equal)
                } else {
                    Ok(equal.opposite())
                }
            }
            _ => Ok(Sight::Open),
        }
    }

    /// What is told of a comparison of each term with the one after it.
    fn in_row(
        &mut self,
        alloc: Global,
        node: usize,
        operator: &Op,
        sights: &[Sight],
    ) -> Result<Sight, Want> {
        let mut all = Sight::Settled(true);
        for second in 1..sights.len() {
            let first = sight_at(sights, second.saturating_sub(1));
            let next = self.compared(alloc, node, operator, first, sight_at(sights, second))?;
            all = all.and(next);
        }
        Ok(all)
    }

    /// What is told of a comparison of each pair of terms.
    fn in_pairs(
        &mut self,
        alloc: Global,
        node: usize,
        operator: &Op,
        sights: &[Sight],
    ) -> Result<Sight, Want> {
        let mut all = Sight::Settled(true);
        for first in 0..sights.len() {
            for second in first.saturating_add(1)..sights.len() {
                let (a, b) = (sight_at(sights, first), sight_at(sights, second));
                let next = self.compared(alloc, node, operator, a, b)?;
                all = all.and(next);
            }
        }
        Ok(all)
    }

    /// What is told of the operator at terms, by what is told of them.
    pub(crate) fn applied(
        &mut self,
        alloc: Global,
        node: usize,
        operator: &Op,
        sights: &[Sight],
    ) -> Result<Sight, Want> {
        let truths = are_settled(sights);
        match operator {
            Op::And => Ok(all_of(sights)),
            Op::Or => Ok(any_of(sights)),
            Op::Not => Ok(sight_at(sights, 0).opposite()),
            Op::Xor if truths => Ok(odd(sights)),
            Op::Implies if truths => Ok(implied(sights)),
            Op::Equal if truths => Ok(same(sights)),
            Op::Distinct if truths => Ok(different(sights)),
            Op::Distinct => self.in_pairs(alloc, node, operator, sights),
            Op::Equal | Op::Le | Op::Lt | Op::Ge | Op::Gt => {
                self.in_row(alloc, node, operator, sights)
            }
            Op::Neg => negated(&mut self.tables, alloc, sights),
            Op::Add => summed(&mut self.tables, alloc, sights),
            Op::Sub => lessened(&mut self.tables, alloc, sights),
            Op::Mul => multiplied(&mut self.tables, alloc, sights),
            _ => Ok(Sight::Open),
        }
    }

    /// What is told of a term; where it is known, the open tests that were listed since then aren't asked.
    pub(crate) fn settled(&mut self, sight: Sight, listed: usize) -> Sight {
        if matches!(sight, Sight::Settled(_)) {
            self.listed.truncate(listed);
        }
        sight
    }

    /// What is told of a name; a variable of truth values that is open is listed.
    pub(crate) fn named(
        &mut self,
        names: &[Sight],
        number: u32,
        node: usize,
    ) -> Result<Sight, Want> {
        let number = number as usize;
        let sight = sight_at(names, number);
        if matches!(sight, Sight::Open) && number < self.variables.len() {
            return self.asked(number, node);
        }
        Ok(sight)
    }
}
