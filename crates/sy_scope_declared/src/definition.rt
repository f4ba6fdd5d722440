// What a definition adds.
ghost use Rattle.std.specs.Prelude.{◌≡◌, ◌++◌, ◌∷◌, [], None, true, OnOk};
ghost use Rattle.sy_terms.specs.declared.term.Fun.TheVariants as funs;
ghost use Rattle.sy_forms_items.specs.declared.names.Entity.TheVariants as entity;
ghost use Rattle.sy_forms_items.specs.Environments.{entry_under};
ghost use Rattle.sy_forms_items.specs.Meant.{phrase_of};
ghost use Rattle.sy_forms_items.specs.Measured.{measures_of};
ghost use Rattle.sy_forms_items.specs.Measures.{is_within_limits, literals_in};
ghost use Rattle.sy_scope_names.specs.Lists.{sorts_of_names};
ghost use Rattle.sy_scope_names.specs.Kept.{pool_of};
ghost use Rattle.sy_scope_names.specs.Pools.{pooled};
ghost use Rattle.sy_scope_declared.specs.Seen.{context_of, definition_of};
ghost use Rattle.sy_scope_names.specs.Changes as spec;

use crate::context::{Context, Definition};
use std::alloc::Global;
use sy_forms_items::{Entity, Measures, Names, Phrase};
use sy_scope_names::{Pool, sorts_of};
use sy_terms::{Fun, Seq, Theory, Want};

/// Adds the values that are written in a phrase.
pub fn note_literals<T: Theory>(
    alloc: Global,
    pool: &mut Pool<T>,
    phrase: &Phrase<T>,
) -> Result<(), Want>
    ensures { OnOk result (pool_of T.denotes pool.new ≡
        pooled (pool_of T.denotes pool.old) (literals_in (phrase_of T.denotes phrase.now))) }
{
    let mut values = Seq::new(alloc);
    phrase.literals(&mut values)?;
    pool.add(values.as_slice())?;
    Ok(())
}

/// Adds the measures of a definition's body, which are small.
fn measure<T: Theory>(measures: &mut Measures, body: &Phrase<T>) -> Result<(), Want>
    requires { is_within_limits (measures_of measures.old) (phrase_of T.denotes body.now) ≡ true }
    ensures { OnOk result (measures_of measures.new ≡
        spec.measured (measures_of measures.old) (phrase_of T.denotes body.now)) }
{
    let size = body.unfolded_size(measures.sizes.as_slice(), u64::MAX);
    let depth = body.unfolded_depth(measures.depths.as_slice(), u64::MAX);
    measures.sizes.push(size)?;
    measures.depths.push(depth)?;
    Ok(())
}

/// Adds what a definition that has a new name and a small body declares, where there are so many before it.
fn declare_definition<T: Theory>(
    alloc: Global,
    names: &mut Names,
    measures: &mut Measures,
    pool: &mut Pool<T>,
    count: usize,
    definition: &Definition<T>,
) -> Result<(), Want>
    requires new { entry_under definition.now.name names.old.entities ≡ None }
    requires small { is_within_limits (measures_of measures.old) (phrase_of T.denotes definition.now.body) ≡ true }
    ensures entities { OnOk result (names.new.entities ≡ names.old.entities ++ (
      definition.now.name,
      entity.Function
          (funs.Defined count) (sorts_of_names definition.now.arguments) definition.now.sort,
    ) ∷ []) }
    ensures sorts { names.new.sorts ≡ names.old.sorts }
    ensures measures { OnOk result (measures_of measures.new ≡
        spec.measured (measures_of measures.old) (phrase_of T.denotes definition.now.body)) }
    ensures pool { OnOk result (pool_of T.denotes pool.new ≡
        pooled (pool_of T.denotes pool.old) (literals_in (phrase_of T.denotes definition.now.body))) }
{
    let Ok(number) = u32::try_from(count) else {
        return Err(Want {});
    };
    let takes = sorts_of(alloc, definition.arguments.as_slice())?;
    let entity = Entity::Function(Fun::Defined(number), takes, definition.sort);
    names.add_entity(definition.name.as_slice(), entity)?;
    measure(measures, &definition.body)?;
    note_literals(alloc, pool, &definition.body)?;
    Ok(())
}

impl<T: Theory> Context<T> {
    /// Adds a definition that has a new name and a small body. It stands in the list before any way out, so that
    /// nothing of it is dropped here.
    pub fn add_definition(&mut self, alloc: Global, definition: Definition<T>) -> Result<(), Want>
        requires new { entry_under definition.name self.old.names.entities ≡ None }
        requires small { is_within_limits (measures_of self.old.measures) (phrase_of T.denotes definition.body) ≡ true }
        ensures step { OnOk result (context_of T.denotes self.new ≡
            spec.with_definition (context_of T.denotes self.old) (definition_of T.denotes definition)) }
        ensures logic { OnOk result (self.new.logic ≡ self.old.logic) }
    {
        let declared = declare_definition(
            alloc,
            &mut self.names,
            &mut self.measures,
            &mut self.pool,
            self.definitions.len(),
            &definition,
        );
        let kept = self.definitions.push(definition);
        declared?;
        kept?;
        Ok(())
    }
}
