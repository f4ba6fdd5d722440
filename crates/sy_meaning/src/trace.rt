// The calls of functions to be found that evaluation asks for.
ghost use Rattle.std.specs.Prelude.{◌≡◌, ◌≤◌, [], length, OnOk, OnErr, MatchOption, slice_get, Some, ◌&&◌, nat_eq};
ghost use Rattle.sy_terms.specs.Denoted.{vals_of};
ghost use Rattle.sy_terms_operators.specs.Tracing.{has_call, same_values, traced};

use std::alloc::Global;
use std::marker::Model;
use sy_terms::{Seq, Theory, Value, Values, Want, copied_values, same_values};

/// The calls of functions to be found, without repeats, in the order in which they were first asked for.
/// Contracts see each as the function's number and the values that its arguments stand for.
#[derive(Drop)]
pub struct Trace<T: Theory> {
    calls: Seq<(u32, Values<T>)>,
}

impl<T: Theory> Model for Trace<T> {
    ghost use Rattle.std.specs.Prelude.{List, ℕ};
    ghost use Rattle.sy_terms.specs.Values.{Val};
    ghost use Rattle.sy_terms_operators.specs.Tracing.{calls_of};

    ghost Value = { List (ℕ × List Val) };

    ghost view = { λ trace. calls_of T.denotes trace.calls };
}

/// Whether the kept call is this one.
fn is_call<T: Theory>(call: &(u32, Values<T>), function: u32, values: &[Value<T::Num>]) -> bool
    ensures { result ≡
        (nat_eq call.now.0 function && same_values (vals_of T.denotes call.now.1) (vals_of T.denotes values.now)) }
{
    call.0 == function && same_values::<T>(call.1.as_slice(), values)
}

impl<T: Theory> Trace<T> {
    /// Nothing asked yet. It takes no memory.
    pub fn new(alloc: Global) -> Trace<T>
        ensures { result ≡ [] }
    {
        Trace {
            calls: Seq::new(alloc),
        }
    }

    /// How many calls there are.
    pub fn len(&self) -> usize
        ensures { result ≡ length self.now }
    {
        self.calls.len()
    }

    /// The function's number and the arguments of the call at `i`; `None` exactly where `i >= len`.
    pub fn get(&self, i: usize) -> Option<(u32, &Values<T>)>
        ensures { MatchOption result (length self.now ≤ i) (λ call.
            slice_get self.now i ≡ Some (call.0, vals_of T.denotes call.1.now)) }
    {
        let (function, values) = self.calls.get(i)?;
        Some((*function, values))
    }

    /// Whether the call is there.
    fn has(&self, function: u32, values: &[Value<T::Num>]) -> bool
        ensures { result ≡ has_call self.now function (vals_of T.denotes values.now) }
    {
        for call in self.calls.as_slice() {
            if is_call::<T>(call, function, values) {
                return true;
            }
        }
        false
    }

    /// Adds the call, unless it is there. On `Want` nothing changes.
    pub fn note(
        &mut self,
        alloc: Global,
        function: u32,
        values: &[Value<T::Num>],
    ) -> Result<(), Want>
        ensures ok { OnOk result (self.new ≡ traced self.old (function, vals_of T.denotes values.now)) }
        ensures err { OnErr result (self.new ≡ self.old) }
    {
        if !self.has(function, values) {
            let tuple = copied_values::<T>(alloc, values)?;
            self.calls.push((function, tuple))?;
        }
        Ok(())
    }
}
