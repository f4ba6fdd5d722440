// The examples of a number.
ghost use Rattle.std.specs.Prelude.{◌≡◌, IfOk};
ghost use Rattle.sygus_drills.specs.Examples as made;

use std::alloc::Global;
use sy_seq::{Seq, Want};

/// How many examples a file has.
const COUNT: u32 = 1000;

/// An argument, and the value that is wanted there.
#[derive(Clone, Copy)]
pub struct Example {
    pub argument: u8,
    pub value: u8,
}

/// The state after this one.
fn next_state(state: u64) -> u64
    ensures { result ≡ made.next_state state }
{
    state
        .wrapping_mul(6364136223846793005)
        .wrapping_add(1442695040888963407)
}

/// The value that is wanted at an argument.
fn value_at(number: u32, argument: u8) -> u8
    ensures { result ≡ made.value_at number argument }
{
    if (argument as u32) < number % 256 {
        255 - argument
    } else {
        argument.wrapping_add(1)
    }
}

/// The example of a state.
fn example_of(number: u32, state: u64) -> Example
    ensures { result ≡ made.example_of number state }
{
    let argument = (state >> 56) as u8;
    Example {
        argument,
        value: value_at(number, argument),
    }
}

/// The 1,000 examples of a number, in order.
pub fn examples(alloc: Global, number: u32) -> Result<Seq<Example>, Want>
    ensures { IfOk result (λ examples. examples ≡ made.examples number) }
{
    let mut examples = Seq::new(alloc);
    let mut state = number as u64;
    for _ in 0..COUNT {
        state = next_state(state);
        examples.push(example_of(number, state))?;
    }
    Ok(examples)
}
