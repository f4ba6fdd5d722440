// Equal gates are made once: how many variables circuits have.
ghost use Rattle.std.specs.Prelude.{◌≤◌, ◌≡◌};
ghost use Rattle.sy_gates.specs.Circuits.{variables, bit_bound};

use std::alloc::Global;
use std::process::Abort;
use sy_clauses::Lit;
use sy_gates::{Bit, Circuit, repeated};

/// How many variables a circuit has.
fn size(rt: &impl Abort, alloc: Global, circuit: &Circuit) -> u32
    requires { 1 ≤ variables circuit.now }
    ensures { result ≡ variables circuit.now }
{
    let first = Lit {
        var: 0,
        positive: true,
    };
    let cnf = circuit.cnf(alloc, first).expect(rt, "memory");
    cnf.vars
}

/// The input of this letter, negated where that is a capital one, of so many variables.
fn input(rt: &impl Abort, letter: u8, vars: u32) -> Bit
    ensures { bit_bound result ≤ vars }
{
    let var = match letter {
        b'x' | b'X' => 0,
        b'y' | b'Y' => 1,
        _ => 2,
    };
    assert!(rt; var < vars);
    Bit::Of(Lit {
        var,
        positive: letter.is_ascii_lowercase(),
    })
}

/// Makes the gate of these letters: `&`, `^` or `?`, and the inputs that it takes.
fn make(rt: &impl Abort, alloc: Global, circuit: &mut Circuit, gate: &str)
    requires { 1 ≤ variables circuit.old }
    ensures { 1 ≤ variables circuit.new }
{
    let vars = size(rt, alloc, circuit);
    assert!(rt; vars < 1000);
    let made = match gate.as_bytes() {
        [b'&', a, b] => circuit.and(input(rt, *a, vars), input(rt, *b, vars)),
        [b'^', a, b] => circuit.xor(input(rt, *a, vars), input(rt, *b, vars)),
        [b'?', a, b, c] => circuit.choose(
            input(rt, *a, vars),
            input(rt, *b, vars),
            input(rt, *c, vars),
        ),
        _ => panic!(rt; "no gate"),
    };
    made.expect(rt, gate);
}

/// How many inputs a circuit has, its gates, and how many variables it has then. First stands each gate twice, in
/// another order or negated; then gates that are bits, and one more that isn't.
pub const ROWS: &str = "\
3 &xy &yx ^xy ^Yx ?xyz ?Xzy 6
2 &xx &xX ^xX ?yxx 2
2 &xx &xX ^xX ?yxx ?yxX 3
";

/// Whether the row's circuit has so many variables.
pub fn is_right(rt: &impl Abort, alloc: Global, row: &str) -> bool {
    let (inputs, rest) = row.split_once(' ').unwrap_or((row, ""));
    let (gates, told) = rest.rsplit_once(' ').unwrap_or((rest, ""));
    let inputs: u32 = inputs.parse().unwrap_or(0);
    let mut circuit = Circuit::new(alloc, inputs.max(1));
    for gate in gates.split(' ') {
        make(rt, alloc, &mut circuit, gate);
    }
    let size = size(rt, alloc, &circuit);
    drop(circuit);
    told.parse() == Ok(size)
}

/// Whether more gates than a table of the first size holds aren't made again.
pub fn is_made_once(rt: &impl Abort, alloc: Global) -> bool {
    let mut circuit = Circuit::new(alloc, 3);
    let inputs = [input(rt, b'x', 3), input(rt, b'y', 3), input(rt, b'z', 3)];
    let a = repeated(alloc, &inputs, 4).expect(rt, "memory");
    let b = repeated(alloc, &inputs[1..], 6).expect(rt, "memory");
    circuit
        .mul(alloc, a.as_slice(), b.as_slice())
        .expect(rt, "memory");
    let made = size(rt, alloc, &circuit);
    circuit
        .mul(alloc, a.as_slice(), b.as_slice())
        .expect(rt, "memory");
    let again = size(rt, alloc, &circuit);
    drop(circuit);
    100 < made && again == made
}
