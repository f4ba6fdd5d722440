// Functions to be found.
ghost use Rattle.std.specs.Prelude.{◌≡◌, OnOk};
ghost use Rattle.std.specs.Option.{option_map};
ghost use Rattle.sy_text_items.specs.Views.{item_of};
ghost use Rattle.sy_forms_items.specs.Readings.{ReadingGives};
ghost use Rattle.sy_terms.specs.Logics.{Serves};
ghost use Rattle.sy_scope_names.specs.Asked.{spelled_of, rulebook_of};
ghost use Rattle.sy_scope_declared.specs.Seen.{context_of};
ghost use Rattle.sy_scope.specs.Grammars.{ruled_of};
ghost use Rattle.sy_scope_steps.specs.Steps as spec;

use std::alloc::Global;
use sy_forms_items::{Named, ReadEnd, copied};
use sy_scope_declared::{Context, Sought};
use sy_scope_names::{Group, Naming, Rulebook, Spelled, read_named};
use sy_scope_steps::read_rulebook;
use sy_terms::{Seq, Sort, Theory, Values};
use sy_text_items::{Sexp, Sexps};

/// A grammar: the nonterminals that are written, where there are any, and the values that are written in them.
#[derive(Drop)]
pub struct Ruled<T: Theory> {
    pub groups: Option<Seq<Group<T>>>,
    pub values: Values<T>,
}

/// The grammar that is written, if any, of a function with these arguments and of this sort.
fn read_grammar<T: Theory>(
    alloc: Global,
    context: &Context<T>,
    arguments: &[Named],
    sort: Sort,
    rules: Option<Rulebook<'_>>,
) -> Result<Ruled<T>, ReadEnd>
    requires { Serves T.numeric context.now.logic }
    ensures { ReadingGives (ruled_of T.denotes context.now.logic arguments.now sort) result (spec.read_grammar
        (context_of T.denotes context.now) context.now.logic arguments.now sort (option_map rulebook_of rules.entry)) }
{
    let Some(book) = rules else {
        return Ok(Ruled {
            groups: None,
            values: Seq::new(alloc),
        });
    };
    let naming = Naming {
        logic: context.logic,
        names: &context.names,
        taken: arguments,
    };
    let written = read_rulebook(alloc, &naming, sort, &book)?;
    Ok(Ruled {
        groups: Some(written.groups),
        values: written.values,
    })
}

/// `synth-fun`, and with no sort `synth-inv`: a new name, arguments, the sort, and maybe a grammar.
pub(crate) fn synthesise<T: Theory>(
    alloc: Global,
    context: &mut Context<T>,
    name: Spelled<'_>,
    arguments: &Sexps,
    sort: Option<&Sexp>,
    rules: Option<Rulebook<'_>>,
) -> Result<(), ReadEnd>
    requires { Serves T.numeric context.old.logic }
    ensures step { ReadingGives (λ _. context_of T.denotes context.new) result
        (spec.synthesise (context_of T.denotes context.old) context.old.logic (spelled_of name.entry) arguments.now
        (option_map (λ item. item_of item.now) sort.entry) (option_map rulebook_of rules.entry)) }
    ensures logic { OnOk result (context.new.logic ≡ context.old.logic) }
{
    context.new_sought(name)?;
    let naming = Naming {
        logic: context.logic,
        names: &context.names,
        taken: &[],
    };
    let arguments = read_named(alloc, &naming, arguments)?;
    let sort = context.value_sort(sort)?;
    let name = copied(alloc, name.name)?;
    let ruled = read_grammar(alloc, context, arguments.as_slice(), sort, rules)?;
    let sought = Sought {
        name,
        arguments,
        sort,
        groups: ruled.groups,
    };
    let added = context.add_sought(alloc, sought, ruled.values.as_slice());
    drop(ruled.values);
    added?;
    Ok(())
}
