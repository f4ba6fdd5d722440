// Checkers of proofs in text.
use std::alloc::Global;
use sy_query_base::Query;
use sy_terms::{Theory, Want};
use sy_text_items::Sexp;

/// What a checker says of an item of text as a proof that no assignment satisfies a query.
#[derive(Clone, Copy, Debug, PartialEq, Eq)]
pub enum Checking {
    /// It is such a proof.
    Proves,
    /// It is no proof, or one that is refused.
    Fails,
    /// A number of its node of this number, in preorder, leaves 128 bits.
    Overflows(u32),
}

/// A checker of proofs in text that no assignment satisfies a theory's query.
pub trait ProofChecker<T: Theory> {
    ghost use Rattle.std.specs.Prelude.{ℕ, IfOk};
    ghost use Rattle.sy_text_items.specs.Items.{Item};
    ghost use Rattle.sy_text_items.specs.Views.{item_of};
    ghost use Rattle.sy_query_base.specs.Asked.{Query, query_of, QueryFits, IsNever};
    ghost use Rattle.sy_verify.specs.Rechecking.{IsChecking};

    /// The item spells a proof for the query, and the checker accepts it.
    ghost proves: { Query → Item → Type 0 };

    /// The item spells no proof, or one that the checker refuses for the query.
    ghost fails: { Query → Item → Type 0 };

    /// The item spells a proof, and while it is checked a number of its node of this number leaves 128 bits.
    ghost overflows: { Query → Item → ℕ → Type 0 };

    /// Which of the three it is.
    fn check(alloc: Global, query: &Query<T>, proof: &Sexp) -> Result<Checking, Want>
        requires { QueryFits T.owned T.numeric (query_of T.denotes query.now) }
        ensures { IfOk result (IsChecking proves fails overflows (query_of T.denotes query.now) (item_of proof.now)) };

    /// A query for which an item proves it is never satisfied.
    ghost sound: { (query : Query) (item : Item) → QueryFits T.owned T.numeric query →
        proves query item → IsNever query };
}
