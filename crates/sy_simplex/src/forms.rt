// The condition on forms.
ghost use Rattle.std.specs.Prelude.{◌↔◌, ◌<◌, IsTrue, ℕ, length};
ghost use Rattle.sy_simplex.specs.Problems.{IsForm, AreForms};

use sy_linear_known::Form;

/// Whether the form's variables are below `vars`, in ascending order.
pub fn is_form(vars: u32, form: &Form) -> bool
    ensures { IsTrue result ↔ IsForm vars form.now }
{
    let coefs = form.coefs.as_slice();
    for at in 0..coefs.len() {
        if coefs[at].0 >= vars || at > 0 && coefs[at - 1].0 >= coefs[at].0 {
            return false;
        }
    }
    true
}

/// Whether each form's variables are below `vars`, in ascending order: the condition of `feasible`.
pub fn are_forms(vars: u32, forms: &[Form]) -> bool
    ensures { IsTrue result ↔ AreForms vars forms.now }
{
    for at in 0..forms.len() {
        if !is_form(vars, &forms[at]) {
            return false;
        }
    }
    true
}
