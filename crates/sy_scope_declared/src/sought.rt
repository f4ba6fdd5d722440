// What a function to be found adds.
ghost use Rattle.std.specs.Prelude.{◌≡◌, ◌++◌, ◌∷◌, [], None, OnOk, IfOk};
ghost use Rattle.std.specs.Option.{option_map};
ghost use Rattle.sy_text_items.specs.Views.{item_of};
ghost use Rattle.sy_terms.specs.Denoted.{vals_of};
ghost use Rattle.sy_terms.specs.declared.term.Fun.TheVariants as funs;
ghost use Rattle.sy_forms_items.specs.declared.names.Entity.TheVariants as entity;
ghost use Rattle.sy_forms_items.specs.Environments.{entry_under};
ghost use Rattle.sy_forms_items.specs.Readings.{ReadingGives};
ghost use Rattle.sy_scope_names.specs.Lists.{sorts_of_names};
ghost use Rattle.sy_scope_names.specs.Kept.{pool_of};
ghost use Rattle.sy_scope_names.specs.Pools.{pooled};
ghost use Rattle.sy_scope_names.specs.Contexts as contexts;
ghost use Rattle.sy_scope_declared.specs.Seen.{context_of, sought_of};
ghost use Rattle.sy_scope_names.specs.Changes as spec;

use crate::context::{Context, Sought};
use std::alloc::Global;
use sy_forms_items::{Entity, Names, ReadEnd, read_sort};
use sy_scope_causes::Cause;
use sy_scope_names::{Pool, Spelled, new_name, sorts_of};
use sy_terms::{Fun, Sort, Theory, Value, Want};
use sy_text_items::Sexp;

/// How many functions to be found a file may have.
const SOUGHT_MAX: usize = 4;

/// Adds what a function to be found that has a new name declares, where there are so many before it, and the values
/// that its grammar writes.
fn declare_sought<T: Theory>(
    alloc: Global,
    names: &mut Names,
    pool: &mut Pool<T>,
    count: usize,
    sought: &Sought<T>,
    values: &[Value<T::Num>],
) -> Result<(), Want>
    requires { entry_under sought.now.name names.old.entities ≡ None }
    ensures entities { OnOk result (names.new.entities ≡ names.old.entities ++ (
      sought.now.name,
      entity.Function
          (funs.Wanted count) (sorts_of_names sought.now.arguments) sought.now.sort,
    ) ∷ []) }
    ensures sorts { names.new.sorts ≡ names.old.sorts }
    ensures pool { OnOk result (pool_of T.denotes pool.new ≡
        pooled (pool_of T.denotes pool.old) (vals_of T.denotes values.now)) }
{
    let Ok(number) = u32::try_from(count) else {
        return Err(Want {});
    };
    let takes = sorts_of(alloc, sought.arguments.as_slice())?;
    let entity = Entity::Function(Fun::Wanted(number), takes, sought.sort);
    names.add_entity(sought.name.as_slice(), entity)?;
    pool.add(values)?;
    Ok(())
}

impl<T: Theory> Context<T> {
    /// Tests a new name of a function to be found: `TooMany` also comes where there are four already.
    pub fn new_sought(&self, name: Spelled<'_>) -> Result<(), ReadEnd>
        ensures name { ReadingGives (λ _. name.entry.name.now) result
            (contexts.new_sought (context_of T.denotes self.now) self.now.logic name.entry.place name.entry.name.now) }
        ensures free { IfOk result (λ _. entry_under name.entry.name.now self.now.names.entities ≡ None) }
    {
        let bytes = name.name.as_slice();
        new_name(&self.names, self.fresh, self.logic, name.place, bytes)?;
        if self.sought.len() < SOUGHT_MAX {
            Ok(())
        } else {
            Err(ReadEnd::Refused(name.place, Cause::TooMany))
        }
    }

    /// Adds a function to be found that has a new name, and the values that its grammar writes. It stands in the list
    /// before any way out, so that nothing of it is dropped here.
    pub fn add_sought(
        &mut self,
        alloc: Global,
        sought: Sought<T>,
        values: &[Value<T::Num>],
    ) -> Result<(), Want>
        requires { entry_under sought.name self.old.names.entities ≡ None }
        ensures step { OnOk result (context_of T.denotes self.new ≡ spec.with_sought (context_of T.denotes self.old)
            (sought_of T.denotes self.old.logic sought) (vals_of T.denotes values.now)) }
        ensures logic { OnOk result (self.new.logic ≡ self.old.logic) }
    {
        let declared = declare_sought(
            alloc,
            &mut self.names,
            &mut self.pool,
            self.sought.len(),
            &sought,
            values,
        );
        let kept = self.sought.push(sought);
        declared?;
        kept?;
        Ok(())
    }

    /// The sort that is written, or that of an invariant.
    pub fn value_sort(&self, sort: Option<&Sexp>) -> Result<Sort, ReadEnd>
        ensures { ReadingGives (λ found. found) result (spec.value_sort (context_of T.denotes self.now) self.now.logic
            (option_map (λ item. item_of item.now) sort.entry)) }
    {
        let Some(item) = sort else {
            return Ok(Sort::Bool);
        };
        let found = read_sort(self.logic, &self.names, item)?;
        Ok(found)
    }
}
