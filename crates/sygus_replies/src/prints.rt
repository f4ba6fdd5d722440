// Printers of proofs.
use std::alloc::Global;
use sy_io::Bytes;
use sy_terms::Want;

/// A printer of the proofs of a solver.
pub trait Prints<P> {
    ghost use Rattle.std.specs.Prelude.{◌≡◌, ℕ, List, IfOk};

    /// The line of a proof, with byte 10 at its end.
    ghost line: { P → List ℕ };

    /// The line of a proof.
    fn print(alloc: Global, proof: &P) -> Result<Bytes, Want>
        ensures { IfOk result (λ text. text ≡ line proof.now) };
}
