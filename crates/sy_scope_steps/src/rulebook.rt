// Written grammars.
ghost use Rattle.std.specs.Prelude.{◌≡◌};
ghost use Rattle.sy_forms_items.specs.Readings.{ReadingGives};
ghost use Rattle.sy_forms_items.specs.Seen.{environment_of};
ghost use Rattle.sy_terms.specs.Logics.{Serves};
ghost use Rattle.sy_scope_steps.specs.Grammars as spec;
ghost use Rattle.sy_scope_steps.specs.Seen.{written_of};
ghost use Rattle.sy_scope_names.specs.Asked.{rulebook_of};

use crate::groups::read_groups;
use std::alloc::Global;
use sy_forms::{Environment, Named, ReadEnd, Rest, Role, constant_groups, divisor_groups};
use sy_scope_causes::Cause;
use sy_scope_names::{Group, Naming, Rulebook, read_predeclared};
use sy_seq::Seq;
use sy_terms::{Sort, Theory, Values};
use sy_text_items::{Place, Sexps};

/// A grammar that was read: its nonterminals, and the values that were written in its rules, in the order of writing.
#[derive(Drop)]
pub struct Written<T: Theory> {
    pub groups: Seq<Group<T>>,
    pub values: Values<T>,
}

/// The grammar that the groups in a list at this place are, for nonterminals that were predeclared. `Shape` comes there
/// where it is empty, `Predeclared` where there aren't as many groups as nonterminals, and then the faults of the
/// groups.
#[tactic(auto, unfolding(crate::specs::Grammars::read_productions))]
fn read_productions<T: Theory>(
    alloc: Global,
    env: &Environment<'_>,
    nonterminals: &[Named],
    groups: &Sexps,
    place: Place,
) -> Result<Written<T>, ReadEnd>
    requires { Serves T.numeric env.now.logic }
    ensures { ReadingGives (written_of T.denotes env.now.arguments.now) result (spec.read_productions
        (environment_of env.now) nonterminals.now (record { items = groups.now; place = place })) }
{
    if Rest::all(groups).is_empty() {
        return Err(ReadEnd::Refused(place, Cause::Shape));
    }
    if groups.len() != nonterminals.len() {
        return Err(ReadEnd::Refused(place, Cause::Predeclared));
    }
    let constants = constant_groups(alloc, env, nonterminals, groups)?;
    let divisors = divisor_groups(alloc, env, nonterminals, groups)?;
    let env = Environment {
        nonterminals,
        constants: constants.as_slice(),
        divisors: divisors.as_slice(),
        ..*env
    };
    let grown = read_groups(alloc, &env, groups)?;
    Ok(Written {
        groups: grown.groups,
        values: grown.values,
    })
}

/// The grammar that a predeclaration and groups of rules are, of a function with these arguments and of this sort. The
/// first fault is told with its place: those of the predeclaration, as in `read_predeclared`, and then those of the
/// groups, as in `read_productions`.
pub fn read_rulebook<T: Theory>(
    alloc: Global,
    naming: &Naming<'_>,
    sort: Sort,
    book: &Rulebook<'_>,
) -> Result<Written<T>, ReadEnd>
    requires { Serves T.numeric naming.now.logic }
    ensures { ReadingGives (written_of T.denotes naming.now.taken.now) result
        (spec.read_rulebook naming.now.names.now.sorts
        naming.now.names.now.entities naming.now.logic naming.now.taken.now sort (rulebook_of book.now)) }
{
    let predeclared = book.predeclared;
    let nonterminals = read_predeclared(alloc, naming, sort, predeclared.items, predeclared.place)?;
    let env = Environment {
        logic: naming.logic,
        role: Role::Grammar,
        names: naming.names,
        arguments: naming.taken,
        nonterminals: &[],
        constants: &[],
        divisors: &[],
    };
    let groups = book.groups;
    let written = read_productions(
        alloc,
        &env,
        nonterminals.as_slice(),
        groups.items,
        groups.place,
    )?;
    Ok(written)
}
