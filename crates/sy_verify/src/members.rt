// Bodies as members of their grammars.
ghost use Rattle.std.specs.Prelude.{◌≡◌, ◌↔◌, length, map, IfOk, IsTrue, MatchOption, All};
ghost use Rattle.sy_terms.specs.Denoted.{expr_of};
ghost use Rattle.sy_grammar_base.specs.Grown.{syntax_from};
ghost use Rattle.sy_grammar_base.specs.Questions.{goal_of};
ghost use Rattle.sy_grammar_base.specs.Solving.{AreMembers};
ghost use Rattle.sy_grammar_base.specs.Trees.{IsMember, IsNumbered};
ghost use Rattle.sy_verify.specs.Posing.{IsFirstOutside};

use std::alloc::Global;
use sy_grammar::derive;
use sy_grammar_base::{Grammar, Wanted};
use sy_terms::{Term, Theory, Want};

/// The number of the first function whose body is no member of its grammar; `None` exactly where all are members.
/// `Want` comes where memory runs out, and where 32 bits don't count that number.
pub(crate) fn first_outside<T: Theory>(
    alloc: Global,
    wanted: &[Wanted<T>],
    bodies: &[Term<T>],
) -> Result<Option<u32>, Want>
    requires numbered { All (λ w. IsNumbered (syntax_from T.denotes w.grammar)) wanted.now }
    requires as_many { length bodies.now ≡ length wanted.now }
    ensures { IfOk result (λ found. MatchOption found
        (AreMembers (map (goal_of T.denotes) wanted.now) (map (expr_of T.denotes) bodies.now))
        (IsFirstOutside (map (goal_of T.denotes) wanted.now) (map (expr_of T.denotes) bodies.now))) }
{
    for (place, function) in wanted.iter().enumerate() {
        let member = is_member(alloc, &function.grammar, &bodies[place])?;
        if !member {
            return match u32::try_from(place) {
                Ok(number) => Ok(Some(number)),
                Err(_) => Err(Want {}),
            };
        }
    }
    Ok(None)
}

/// Whether the body is a member of the grammar.
fn is_member<T: Theory>(alloc: Global, grammar: &Grammar<T>, body: &Term<T>) -> Result<bool, Want>
    requires { IsNumbered (syntax_from T.denotes grammar.now) }
    ensures { IfOk result (λ member. IsTrue member ↔ IsMember (syntax_from T.denotes grammar.now)
        (expr_of T.denotes body.now)) }
{
    let found = derive(alloc, grammar, 0, body)?;
    let member = found.is_some();
    Ok(member)
}
