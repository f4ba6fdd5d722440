// The file of a number.
ghost use Rattle.std.specs.Prelude.{◌≡◌, ◌++◌, IfOk, OnOk};
ghost use Rattle.std.specs.List.{flat_map};
ghost use Rattle.sygus_drills.specs.Files as files;

use crate::generator::{Example, examples};
use std::alloc::Global;
use sy_io::Bytes;
use sy_seq::Want;
use sy_text::write_vector;

/// Appends the rule that tests whether the argument is below the number.
#[tactic(auto, unfolding(crate::specs::Files::condition))]
fn put_condition(file: &mut Bytes, number: u32) -> Result<(), Want>
    ensures { OnOk result (file.new ≡ file.old ++ files.condition number) }
{
    file.append(b"   (C Bool ((bvult x ")?;
    write_vector(file, 8, (number % 256) as u64)?;
    file.append(b")))))\n")
}

/// Appends the logic, and the function with its grammar.
#[tactic(auto, unfolding(crate::specs::Files::function))]
fn put_function(file: &mut Bytes, number: u32) -> Result<(), Want>
    ensures { OnOk result (file.new ≡ file.old ++ files.function number) }
{
    file.append(
        b"(set-logic BV)\n(synth-fun f ((x (_ BitVec 8))) (_ BitVec 8)\n  ((S (_ BitVec 8)) (C Bool))\n  ((S (_ BitVec 8) (x (bvnot x) (bvadd x #x01) (ite C S S)))\n",
    )?;
    put_condition(file, number)
}

/// Appends the constraint of an example.
#[tactic(auto, unfolding(crate::specs::Files::constraint))]
fn put_constraint(file: &mut Bytes, example: Example) -> Result<(), Want>
    ensures { OnOk result (file.new ≡ file.old ++ files.constraint example) }
{
    file.append(b"(constraint (= (f ")?;
    write_vector(file, 8, example.argument as u64)?;
    file.append(b") ")?;
    write_vector(file, 8, example.value as u64)?;
    file.append(b"))\n")
}

/// Appends the constraints of examples.
fn put_constraints(file: &mut Bytes, examples: &[Example]) -> Result<(), Want>
    ensures { OnOk result (file.new ≡ file.old ++ flat_map files.constraint examples.now) }
{
    for example in examples {
        put_constraint(file, *example)?;
    }
    Ok(())
}

/// The file of a number: a function of two cases with a grammar, 1,000 constraints of one example each, and a
/// `check-synth`.
pub fn drill_file(alloc: Global, number: u32) -> Result<Bytes, Want>
    ensures { IfOk result (λ file. file ≡ files.drill_file number) }
{
    let mut file = Bytes::new(alloc);
    put_function(&mut file, number)?;
    put_constraints(&mut file, examples(alloc, number)?.as_slice())?;
    file.append(b"(check-synth)\n")?;
    Ok(file)
}
