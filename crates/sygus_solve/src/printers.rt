// Printers of the solvers' proofs.
ghost use Rattle.sygus_answers.specs.Answers.{log_line, tree_line};

use std::alloc::Global;
use sy_bits::BvProof;
use sy_io::Bytes;
use sy_linear_known::Tree;
use sy_proof::{write_log, write_tree};
use sy_terms::Want;
use sygus_replies::Prints;

/// The printer of resolution logs.
pub(crate) struct Logs;

impl Prints<BvProof> for Logs {
    ghost line = { log_line };

    fn print(alloc: Global, proof: &BvProof) -> Result<Bytes, Want> {
        let text = write_log(alloc, &proof.log)?;
        Ok(text)
    }
}

/// The printer of refutation trees.
pub(crate) struct Trees;

impl Prints<Tree> for Trees {
    ghost line = { tree_line };

    fn print(alloc: Global, proof: &Tree) -> Result<Bytes, Want> {
        let text = write_tree(alloc, proof)?;
        Ok(text)
    }
}
