// Whether a path can be split on a test.
ghost use Rattle.std.specs.Prelude.{◌≡◌, ◌<◌, ◌^◌, true, length, IfOk};
ghost use Rattle.sy_intsolve_paths_laws.specs.Paths.{IsPath, TestIsOpen};

use std::alloc::{AllocError, Global};
use sy_linear::split;
use sy_linear_known::{CheckEnd, Fact, Test, given};
use sy_seq::Want;
use sy_simplex::is_form;
use sy_terms::Sort;

/// Whether the path can be split on the test: it is on variables of the query, its negation fits, and the facts don't
/// give the truth value that it asks for. `Want` comes where memory runs out, and nowhere else.
pub fn can_split(alloc: Global, vars: &[Sort], facts: &[Fact], test: &Test) -> Result<bool, Want>
    requires { length vars.now < 2 ^ 31 }
    ensures { IfOk result (λ can. can ≡ true → IsPath vars.now facts.now → TestIsOpen vars.now facts.now test.now) }
{
    match split(alloc, vars, test, 0) {
        Ok(Some(_)) => {}
        Ok(None) | Err(CheckEnd::Range(_)) => return Ok(false),
        Err(CheckEnd::Want) => return Err(AllocError),
    }
    let can = match test {
        Test::AtLeast(form) => is_form(vars.len() as u32, form),
        Test::Holds(variable) => given(*variable, facts).is_none(),
    };
    Ok(can)
}
