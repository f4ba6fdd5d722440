// Refutation trees written as text.
#![tactic(auto, using(crate::proofs::Lists::others_spaced), unfolding(sy_text::specs::Spelling::atom_text, sy_text::specs::Spelling::symbol_text, sy_text::specs::Spelling::bare, sy_text_items::specs::Lexicon::digit, sy_text_items::specs::Lexicon::symbol_byte, sy_text_items::specs::Lexicon::letter, sy_text_items::specs::Lexicon::mark))]

ghost use Rattle.std.specs.Prelude.{◌≡◌, ◌++◌, ◌∷◌, [], ◌<◌, ◌^◌, ℕ, List, All, OnOk, IfOk};
ghost use Rattle.sy_text.specs.Reading.{command_at};
ghost use Rattle.sy_text.specs.Spelling.{item_text};
ghost use Rattle.sy_frac.specs.Fraction.{IsLowest};
ghost use Rattle.sy_linear_known.specs.Stored.{tree_shape_of};
ghost use Rattle.sy_proof.specs.Lists.{each_item, spaced};
ghost use Rattle.sy_proof.specs.Nodes.{node_item, pair_item, test_item, FormFits, NodeFits, PairFits, TestFits};
ghost use Rattle.sy_proof.specs.Numbers.{fraction_item, quotient_item, whole_item, WholeFits};
ghost use Rattle.sy_linear_known.specs.declared.path.Test.TheVariants as tests;
ghost use Rattle.sy_proof.specs.declared.nodes.Node.TheVariants as nodes;
ghost use Rattle.sy_proof.specs.Trees.{nodes_of, tree_item, IsReadable, ReadsTree};

use crate::numbers::put_number;
use std::alloc::Global;
use sy_frac::Frac;
use sy_io::Bytes;
use sy_linear_known::{Form, Test, Tree};
use sy_seq::Want;
use sy_text::write_numeral;

/// The tree as text, and byte 10. Its points aren't written, and an unfinished leaf is `(unfinished)`, which isn't
/// read.
pub fn write_tree(alloc: Global, tree: &Tree) -> Result<Bytes, Want>
    ensures text { IfOk result (λ text. text ≡ item_text (tree_item (tree_shape_of tree.now)) ++ 10 ∷ []) }
    // What is written is read as the same tree apart from points, whatever follows.
    ensures again { IfOk result (λ text. IsReadable (tree_shape_of tree.now) → (total : ℕ) (rest : List ℕ) → ReadsTree
        (tree_shape_of tree.now) (command_at total (text ++ rest))) }
{
    let mut out = Bytes::new(alloc);
    out.append(b"(tree")?;
    put_nodes(&mut out, tree)?;
    out.append(b")\n")?;
    Ok(out)
}

/// Appends the nodes in preorder, each behind one space.
fn put_nodes(out: &mut Bytes, tree: &Tree) -> Result<(), Want>
    ensures text { OnOk result (out.new ≡ out.old ++ spaced (each_item node_item (nodes_of (tree_shape_of tree.now)))) }
    ensures fit { OnOk result (All NodeFits (nodes_of (tree_shape_of tree.now))) }
{
    match tree {
        Tree::Split(test, _, left, right) => {
            put_split(out, test)?;
            put_nodes(out, left)?;
            put_nodes(out, right)?;
            Ok(())
        }
        Tree::Branch(variable, bound, _, left, right) => {
            put_branch(out, *variable, *bound)?;
            put_nodes(out, left)?;
            put_nodes(out, right)?;
            Ok(())
        }
        Tree::Cut(multipliers, divisor, _, inner) => {
            put_cut(out, *divisor, multipliers.as_slice())?;
            put_nodes(out, inner)?;
            Ok(())
        }
        Tree::Farkas(multipliers) => put_farkas(out, multipliers.as_slice()),
        Tree::Shown => put_leaf(out, b" (shown)"),
        Tree::Unfinished => put_leaf(out, b" (unfinished)"),
    }
}

/// Appends a leaf.
fn put_leaf(out: &mut Bytes, leaf: &[u8]) -> Result<(), Want>
    ensures { OnOk result (out.new ≡ out.old ++ leaf.now) }
{
    out.append(leaf)
}

/// Appends one space and the node that tests.
fn put_split(out: &mut Bytes, test: &Test) -> Result<(), Want>
    ensures text { OnOk result (out.new ≡ out.old ++ 32 ∷ item_text (node_item (nodes.Split test.now))) }
    ensures fits { OnOk result (TestFits test.now) }
{
    out.append(b" (split ")?;
    put_test(out, test)?;
    out.push(b')')?;
    Ok(())
}

/// Appends one space and the node that bounds a variable.
fn put_branch(out: &mut Bytes, variable: u32, bound: i128) -> Result<(), Want>
    ensures text { OnOk result (out.new ≡ out.old ++ 32 ∷ item_text (node_item (nodes.Branch variable bound))) }
    ensures small { variable < 2 ^ 32 }
    ensures fits { WholeFits bound }
{
    out.append(b" (branch ")?;
    put_number(out, variable)?;
    out.push(b' ')?;
    put_whole(out, bound)?;
    out.push(b')')?;
    Ok(())
}

/// Appends one space and the node that cuts.
fn put_cut(out: &mut Bytes, divisor: i128, multipliers: &[Frac]) -> Result<(), Want>
    ensures text { OnOk result (out.new ≡ out.old ++ 32 ∷ item_text (node_item (nodes.Cut divisor multipliers.now))) }
    ensures fits { WholeFits divisor }
    ensures lowest { OnOk result (All IsLowest multipliers.now) }
{
    out.append(b" (cut ")?;
    put_whole(out, divisor)?;
    put_fractions(out, multipliers)?;
    out.push(b')')?;
    Ok(())
}

/// Appends one space and the leaf that contradicts.
fn put_farkas(out: &mut Bytes, multipliers: &[Frac]) -> Result<(), Want>
    ensures text { OnOk result (out.new ≡ out.old ++ 32 ∷ item_text (node_item (nodes.Farkas multipliers.now))) }
    ensures lowest { OnOk result (All IsLowest multipliers.now) }
{
    out.append(b" (farkas")?;
    put_fractions(out, multipliers)?;
    out.push(b')')?;
    Ok(())
}

/// Appends the test.
fn put_test(out: &mut Bytes, test: &Test) -> Result<(), Want>
    ensures text { OnOk result (out.new ≡ out.old ++ item_text (test_item test.now)) }
    ensures fits { OnOk result (TestFits test.now) }
{
    match test {
        Test::AtLeast(form) => put_form(out, form),
        Test::Holds(variable) => put_holds(out, *variable),
    }
}

/// Appends the test of a form.
fn put_form(out: &mut Bytes, form: &Form) -> Result<(), Want>
    ensures text { OnOk result (out.new ≡ out.old ++ item_text (test_item (tests.AtLeast form.now))) }
    ensures fits { OnOk result (FormFits form.now) }
{
    out.append(b"(atleast ")?;
    put_whole(out, form.constant)?;
    put_pairs(out, form.coefs.as_slice())?;
    out.push(b')')?;
    Ok(())
}

/// Appends the test of a variable.
fn put_holds(out: &mut Bytes, variable: u32) -> Result<(), Want>
    ensures text { OnOk result (out.new ≡ out.old ++ item_text (test_item (tests.Holds variable))) }
    ensures small { variable < 2 ^ 32 }
{
    out.append(b"(holds ")?;
    put_number(out, variable)?;
    out.push(b')')?;
    Ok(())
}

/// Appends the variables and their coefficients, each pair behind one space.
fn put_pairs(out: &mut Bytes, pairs: &[(u32, i128)]) -> Result<(), Want>
    ensures text { OnOk result (out.new ≡ out.old ++ spaced (each_item pair_item pairs.now)) }
    ensures fit { OnOk result (All PairFits pairs.now) }
{
    for pair in pairs {
        put_pair(out, *pair)?;
    }
    Ok(())
}

/// Appends one space, the variable and its coefficient.
fn put_pair(out: &mut Bytes, pair: (u32, i128)) -> Result<(), Want>
    ensures text { OnOk result (out.new ≡ out.old ++ 32 ∷ item_text (pair_item pair)) }
    ensures fits { OnOk result (PairFits pair) }
{
    let (variable, number) = pair;
    out.append(b" (")?;
    put_number(out, variable)?;
    out.push(b' ')?;
    put_whole(out, number)?;
    out.push(b')')?;
    Ok(())
}

/// Appends the fractions, each behind one space.
fn put_fractions(out: &mut Bytes, fractions: &[Frac]) -> Result<(), Want>
    ensures text { OnOk result (out.new ≡ out.old ++ spaced (each_item fraction_item fractions.now)) }
    ensures lowest { OnOk result (All IsLowest fractions.now) }
{
    for fraction in fractions {
        put_fraction(out, fraction)?;
    }
    Ok(())
}

/// Appends one space and the fraction.
fn put_fraction(out: &mut Bytes, fraction: &Frac) -> Result<(), Want>
    ensures text { OnOk result (out.new ≡ out.old ++ 32 ∷ item_text (fraction_item fraction.now)) }
    ensures lowest { OnOk result (IsLowest fraction.now) }
{
    out.push(b' ')?;
    if fraction.den() == 1 {
        put_whole(out, fraction.num())?;
        return Ok(());
    }
    put_quotient(out, fraction.num(), fraction.den().unsigned_abs())?;
    Ok(())
}

/// Appends `(/ a b)`.
fn put_quotient(out: &mut Bytes, num: i128, den: u128) -> Result<(), Want>
    ensures { OnOk result (out.new ≡ out.old ++ item_text (quotient_item num den)) }
{
    out.append(b"(/ ")?;
    put_whole(out, num)?;
    out.push(b' ')?;
    write_numeral(out, den)?;
    out.push(b')')?;
    Ok(())
}

/// Appends the whole number: a numeral, `(- n)`, or `min`.
fn put_whole(out: &mut Bytes, whole: i128) -> Result<(), Want>
    ensures text { OnOk result (out.new ≡ out.old ++ item_text (whole_item whole)) }
    ensures fits { WholeFits whole }
{
    if whole >= 0 {
        return write_numeral(out, whole.unsigned_abs());
    }
    if whole == i128::MIN {
        return out.append(b"min");
    }
    out.append(b"(- ")?;
    write_numeral(out, whole.unsigned_abs())?;
    out.push(b')')?;
    Ok(())
}
