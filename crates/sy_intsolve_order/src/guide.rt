// The guide of a search.
ghost use Rattle.std.specs.Prelude.{◌<◌, ◌^◌, length, IfOk, IfSome};
ghost use Rattle.sy_intsolve_paths_laws.specs.Paths.{IsPath, TestIsOpen};

use crate::asking::Asking;
use crate::choice::Counts;
use crate::marks::{Mark, mark_all};
use crate::splitting::can_split;
use crate::truths::Sight;
use crate::zones::Zones;
use std::alloc::Global;
use sy_linear_known::{Fact, Test};
use sy_meaning_integers::IntTheory;
use sy_query_base::Query;
use sy_seq::Want;

/// What is prepared of a query, and kept from one choice of a test to the next.
#[derive(Drop)]
pub struct Guide {
    /// What is known of the query's nodes, in preorder.
    pub(crate) marks: Vec<Mark>,
    pub(crate) asking: Asking,
    /// What is told of the names in force in a walk.
    pub(crate) names: Vec<Sight>,
    /// What is told of the arguments of the applications in which a walk is.
    pub(crate) sights: Vec<Sight>,
    /// The number of the node that comes next in a walk.
    pub(crate) next: usize,
    /// What the path tells of differences of variables.
    zones: Zones,
    counts: Counts,
}

/// Appends what is told of the variables: by what a path tells of the tests on them, or else by no fact.
fn name_variables(
    names: &mut Vec<Sight>,
    variables: &[Sight],
    truths: &[Option<bool>],
) -> Result<(), Want> {
    for number in 0..variables.len() {
        let sight = match truths.get(number) {
            Some(Some(truth)) => Sight::Settled(*truth),
            _ => variables[number],
        };
        names.push(sight)?;
    }
    Ok(())
}

impl Guide {
    /// The guide of a search for an assignment that satisfies the query. `Want` comes where memory runs out, and
    /// nowhere else.
    pub fn new(alloc: Global, query: &Query<IntTheory>) -> Result<Guide, Want> {
        let mut guide = Guide::empty(alloc);
        match guide.prepare(alloc, query) {
            Ok(()) => Ok(guide),
            Err(want) => {
                drop(guide);
                Err(want)
            }
        }
    }

    /// Nothing. It takes no memory.
    fn empty(alloc: Global) -> Guide {
        Guide {
            marks: Vec::new(alloc),
            asking: Asking::new(alloc),
            names: Vec::new(alloc),
            sights: Vec::new(alloc),
            next: 0,
            zones: Zones::new(alloc),
            counts: Counts::new(alloc),
        }
    }

    /// Takes down what is known of the query's nodes and told of its variables.
    fn prepare(&mut self, alloc: Global, query: &Query<IntTheory>) -> Result<(), Want> {
        mark_all(&mut self.marks, &query.body, Mark::root())?;
        self.asking.add_variables(alloc, query.vars.as_slice())?;
        Ok(())
    }

    /// Lists the open tests of the query under the facts that are noted.
    fn list(&mut self, alloc: Global, query: &Query<IntTheory>) -> Result<(), Want> {
        self.names.clear();
        name_variables(
            &mut self.names,
            self.asking.variables.as_slice(),
            self.asking.truths.as_slice(),
        )?;
        self.sights.clear();
        self.asking.listed.clear();
        self.next = 0;
        self.walk(alloc, &query.body)?;
        Ok(())
    }

    /// A test that the facts leave open at a node of the query that they don't tell, by the order of search; none where
    /// there is none.
    fn guess(
        &mut self,
        alloc: Global,
        query: &Query<IntTheory>,
        facts: &[Fact],
    ) -> Result<Option<Test>, Want> {
        self.zones.take(self.asking.variables.len(), facts)?;
        self.asking.take(alloc, facts)?;
        self.list(alloc, query)?;
        if let Some(number) = self.asking.forced(&self.zones) {
            return self.asking.test(alloc, number);
        }
        let tests = self.asking.tests();
        let listed = self.asking.listed.as_slice();
        let found = self.counts.chosen(tests, self.marks.as_slice(), listed)?;
        match found {
            Some(number) => self.asking.test(alloc, number),
            None => Ok(None),
        }
    }

    /// A test on which the facts' path can be split, and that is likely to settle much; `None` where no test is found
    /// to be open. A test that the facts' bounds on differences of variables tell goes before all others, since one of
    /// its sides then ends at once. Tests in few premises follow, then those in an argument of an implication with few
    /// open tests, then those that are asked often. `Want` comes where memory runs out, and nowhere else.
    pub fn choose(
        &mut self,
        alloc: Global,
        query: &Query<IntTheory>,
        facts: &[Fact],
    ) -> Result<Option<Test>, Want>
        requires few { length query.now.vars < 2 ^ 31 }
        requires path { IsPath query.now.vars facts.now }
        ensures { IfOk result (λ found. IfSome found (TestIsOpen query.now.vars facts.now)) }
    {
        if let Some(test) = self.guess(alloc, query, facts)? {
            let vars = query.vars.as_slice();
            if can_split(alloc, vars, facts, &test)? {
                return Ok(Some(test));
            }
        }
        Ok(None)
    }
}
