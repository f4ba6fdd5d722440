// Room for names, and new names.
ghost use Rattle.std.specs.Prelude.{◌≡◌, None, IfOk};
ghost use Rattle.sy_forms_items.specs.Environments.{entry_under};
ghost use Rattle.sy_forms_items.specs.Readings.{ReadingGives};
ghost use Rattle.sy_scope_names.specs.Contexts as spec;
ghost use Rattle.sy_scope_names.specs.Known.{declared};

use sy_forms_items::{Names, ReadEnd, is, is_reserved};
use sy_scope_causes::Cause;
use sy_terms::Logic;
use sy_text_items::Place;

/// How many declared names and fresh variables a file may have.
const NAMES_MAX: usize = 4096;

/// Whether there is room for so many names more, beside the declared names and so many fresh variables.
pub fn has_room(names: &Names, fresh: usize, more: usize) -> bool
    ensures { result ≡ spec.has_room (declared names.now fresh) more }
{
    let used = names.len();
    used <= NAMES_MAX && fresh <= NAMES_MAX - used && more <= NAMES_MAX - used - fresh
}

/// Tests a new name of a variable or a function, beside the declared names and so many fresh variables: `NameTaken`
/// comes where it is reserved or stands for something, and then `TooMany` where there are 4,096 names already.
pub fn new_name(
    names: &Names,
    fresh: usize,
    logic: Logic,
    at: Place,
    name: &[u8],
) -> Result<(), ReadEnd>
    ensures name { ReadingGives (λ _. name.now) result (spec.new_name (declared names.now fresh) logic at name.now) }
    ensures free { IfOk result (λ _. entry_under name.now names.now.entities ≡ None) }
{
    if is_reserved(logic, name) || names.entity(name).is_some() {
        return Err(ReadEnd::Refused(at, Cause::NameTaken));
    }
    if has_room(names, fresh, 1) {
        Ok(())
    } else {
        Err(ReadEnd::Refused(at, Cause::TooMany))
    }
}

/// Whether it is the name of a sort that is always there.
fn is_sort_name(name: &[u8]) -> bool
    ensures { result ≡ spec.is_sort_name name.now }
{
    is(name, b"Bool") || is(name, b"Int") || is(name, b"BitVec")
}

/// Tests a new name of a sort, beside the declared names and so many fresh variables: `NameTaken` comes where it is
/// reserved or a sort's, and then `TooMany` where there are 4,096 names already.
pub fn new_sort_name(
    names: &Names,
    fresh: usize,
    logic: Logic,
    at: Place,
    name: &[u8],
) -> Result<(), ReadEnd>
    ensures name { ReadingGives (λ _.
        name.now) result (spec.new_sort_name (declared names.now fresh) logic at name.now) }
    ensures free { IfOk result (λ _. entry_under name.now names.now.sorts ≡ None) }
{
    if is_reserved(logic, name) || is_sort_name(name) || names.sort(name).is_some() {
        return Err(ReadEnd::Refused(at, Cause::NameTaken));
    }
    if has_room(names, fresh, 1) {
        Ok(())
    } else {
        Err(ReadEnd::Refused(at, Cause::TooMany))
    }
}
