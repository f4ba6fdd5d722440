// The names of a file's functions.
ghost use Rattle.std.specs.Prelude.{◌≡◌, map, IfOk};
ghost use Rattle.sy_scope_names.specs.Jobs as spec;
ghost use Rattle.sy_scope_declared.specs.Seen.{context_of, definition_of, sought_of};
ghost use Rattle.sy_terms.specs.declared.sort.Logic.{Logic};
ghost use Rattle.sy_forms_items.specs.declared.names.Named.{Named};
ghost use Rattle.sy_scope_names.specs.Contexts as contexts;

use crate::context::{Context, Definition, Sought};
use std::alloc::Global;
use sy_forms_items::{Named, copied};
use sy_scope_causes::{Title, Titles};
use sy_terms::{Seq, Theory, Want};
use sy_text_items::Name;

/// The names of arguments, in order.
fn names_of(alloc: Global, arguments: &[Named]) -> Result<Seq<Name>, Want>
    ensures { IfOk result (λ names. names ≡ map (λ (x : Named). x.name) arguments.now) }
{
    let mut names = Seq::new(alloc);
    for argument in arguments {
        names.push(copied(alloc, &argument.name)?)?;
    }
    Ok(names)
}

/// The names of a function to be found and of its arguments.
fn title_of<T: Theory>(alloc: Global, sought: &Sought<T>) -> Result<Title, Want>
    ensures { IfOk result (λ title. title ≡ spec.headed sought.now.name sought.now.arguments) }
{
    let name = copied(alloc, &sought.name)?;
    let args = names_of(alloc, sought.arguments.as_slice())?;
    Ok(Title { name, args })
}

/// The names of the functions to be found, in order.
fn wanted_titles<T: Theory>(alloc: Global, sought: &[Sought<T>]) -> Result<Seq<Title>, Want>
    ensures { (logic : Logic) →
        IfOk result (λ titles. titles ≡ map spec.title_of (map (sought_of T.denotes logic) sought.now)) }
{
    let mut titles = Seq::new(alloc);
    for one in sought {
        titles.push(title_of(alloc, one)?)?;
    }
    Ok(titles)
}

/// The names of definitions, in order.
fn defined_names<T: Theory>(alloc: Global, definitions: &[Definition<T>]) -> Result<Seq<Name>, Want>
    ensures { IfOk result (λ names. names ≡
        map (λ (d : contexts.Definition). d.name) (map (definition_of T.denotes) definitions.now)) }
{
    let mut names = Seq::new(alloc);
    for definition in definitions {
        names.push(copied(alloc, &definition.name)?)?;
    }
    Ok(names)
}

impl<T: Theory> Context<T> {
    /// The names of the functions, in order of declaration.
    pub fn titles(&self, alloc: Global) -> Result<Titles, Want>
        ensures { IfOk result (λ titles. titles ≡ spec.titles_of (context_of T.denotes self.now)) }
    {
        let wanted = wanted_titles(alloc, self.sought.as_slice())?;
        let defined = defined_names(alloc, self.definitions.as_slice())?;
        Ok(Titles { wanted, defined })
    }
}
