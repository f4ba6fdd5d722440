// Solvers of queries.
use crate::Query;
use crate::verdict::Verdict;
use std::alloc::Global;
use sy_query_limits::{FailName, Limits};
use sy_terms::{Theory, Want};

/// A solver of a theory's queries. Each answer carries what shows it.
pub trait Decide<T: Theory> {
    /// A proof that no assignment satisfies a query.
    type Proof: Drop;

    /// What is left of a search whose budget ran out.
    type Spent: Drop;

    ghost use Rattle.std.specs.Prelude.{◌≡◌, true, IfOk};
    ghost use Rattle.sy_terms.specs.Denoted.{vals_of};
    ghost use Rattle.sy_query_limits.specs.declared.FailName.{FailName};
    ghost use Rattle.sy_query_limits.specs.declared.Limits.{Limits};
    ghost use Rattle.sy_query_base.specs.Asked.{Query, query_of, QueryFits, IsNever};
    ghost use Rattle.sy_query_base.specs.Budgets.{is_solver_budget};
    ghost use Rattle.sy_query_base.specs.Answers.{Answers};

    /// The proof is accepted for the query.
    ghost accepted: { Query → Self.Proof → Type 0 };

    /// Which budget ran out.
    ghost budget: { Self.Spent → FailName };

    /// What is kept shows that the budget of this name ran out for the query under these limits.
    ghost shows: { Query → Limits → FailName → Self.Spent → Type 0 };

    /// Whether some assignment satisfies the query. `Never` has an accepted proof that none does, `Model` an
    /// assignment that satisfies it, and `Spent` what shows that one of the solver's budgets ran out.
    fn decide(
        &mut self,
        alloc: Global,
        query: &Query<T>,
        limits: &Limits,
    ) -> Result<Verdict<T, Self::Proof, Self::Spent>, Want>
        requires { QueryFits T.owned T.numeric (query_of T.denotes query.now) }
        ensures { IfOk result (Answers T.denotes accepted budget shows (query_of T.denotes query.now) limits.now) };

    /// Which budget ran out: `Clauses`, `Nodes`, `Pivots` or `Range`.
    fn name_of(spent: &Self::Spent) -> FailName
        ensures name { result ≡ budget spent.now }
        ensures own { is_solver_budget result ≡ true };

    /// A query for which a proof is accepted is never satisfied.
    ghost sound: { (query : Query) (proof : Self.Proof) →
        QueryFits T.owned T.numeric query → accepted query proof → IsNever query };
}
