// Numbers by which forms are found.
use sy_linear_known::Form;

/// A number for both numbers.
pub(crate) fn mixed(seed: u64, number: u64) -> u64 {
    (seed.rotate_left(23) ^ number).wrapping_mul(0x9e37_79b9_7f4a_7c15)
}

/// A number for the whole number.
fn code(number: i128) -> u64 {
    let part = (number.unsigned_abs() % (1 << 64)) as u64;
    if number < 0 { u64::MAX - part } else { part }
}

/// A number for the form.
pub(crate) fn form_hash(form: &Form) -> u64 {
    let mut hash = code(form.constant);
    for coefficient in form.coefs.as_slice() {
        hash = mixed(mixed(hash, u64::from(coefficient.0)), code(coefficient.1));
    }
    hash
}
