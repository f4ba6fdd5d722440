// The way from the root of the tree to the place at which the search is.
ghost use Rattle.std.specs.Prelude.{◌≡◌, ◌<◌, ◌+◌, ◌∷◌, ◌++◌, [], List, IfOk};
ghost use Rattle.sy_linear_known.specs.declared.path.Fact.{Fact as FactOf};
ghost use Rattle.sy_intsolve.specs.Ways.{IsLonger};

use std::alloc::Global;
use sy_intsolve_cuts::Step;
use sy_linear_known::Fact;
use sy_seq::Want;

/// A way from the root.
#[derive(Drop)]
pub(crate) struct Way {
    /// The facts that its steps add, in order.
    pub(crate) facts: Vec<Fact>,
    /// Its steps, the root's first.
    pub(crate) steps: Vec<Step>,
    /// The inner nodes of the whole tree so far.
    pub(crate) inner: u32,
}

impl Way {
    /// The way to the root of a tree without inner nodes.
    pub(crate) fn new(alloc: Global) -> Way
        ensures facts { result.facts.items ≡ [] }
        ensures steps { result.steps.items ≡ [] }
        ensures inner { result.inner ≡ 0 }
    {
        Way {
            facts: Vec::new(alloc),
            steps: Vec::new(alloc),
            inner: 0,
        }
    }

    /// The way, with one inner node more in the whole tree.
    pub(crate) fn counted(self) -> Way
        requires { self.inner < 4294967295 }
        ensures facts { result.facts.items ≡ self.facts.items }
        ensures steps { result.steps.items ≡ self.steps.items }
        ensures inner { result.inner ≡ self.inner + 1 }
    {
        let Way {
            facts,
            steps,
            inner,
        } = self;
        Way {
            facts,
            steps,
            inner: inner + 1,
        }
    }

    /// The way with a step more, which adds the fact.
    pub(crate) fn longer(self, fact: Fact, step: Step) -> Result<Way, Want>
        ensures { IfOk result (IsLonger self fact step) }
    {
        let Way {
            mut facts,
            mut steps,
            inner,
        } = self;
        steps.push(step)?;
        facts.push(fact)?;
        Ok(Way {
            facts,
            steps,
            inner,
        })
    }
}

/// The facts but for the last one.
pub(crate) fn without_last(facts: Vec<Fact>) -> Vec<Fact>
    ensures { (rest : List FactOf) (last : FactOf) → facts.items ≡ rest ++ last ∷ [] → result.items ≡ rest }
{
    let mut rest = facts;
    rest.pop();
    rest
}
