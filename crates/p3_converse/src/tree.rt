//! Undoing the folds of a whole schedule.

ghost use Rattle.std.specs.Prelude.{◌≡◌, ◌*◌, ◌^◌, ◌<◌, length, map, vec_len, All, IfOk};
ghost use Rattle.p3_converse.specs.Branches.{log_sum, input_logs, IsTreeUnfolding};
ghost use Rattle.p3_converse.specs.Branches.{with_input, IsRoundUnfolding};
ghost use Rattle.p3_converse.specs.Trees.{tree_of, leaf_length, HasPaths, HasLeaves};
ghost use Rattle.p3_converse.specs.Trees.{beta_count, HasBetas};
ghost use Rattle.p3_converse.specs.TreeCoefficients.{round_word, round_inputs};
ghost use Rattle.p3_converse.specs.TreeCoefficients.{tree_word, tree_inputs};
ghost use Rattle.algebra.specs.Interpolation.{AreDistinct};
ghost use Rattle.algebra.specs.Nested.{lists};
ghost use Rattle.p3_converse.specs.Unfolding.{common_length};

use crate::unfolding::{unfold, unfold_with_input};
use p3_field_core::Field;
use std::alloc::{AllocError, Global};

/// The challenges at which a word is folded round by round, several a round, and the
/// polynomials that are left after the last round.
#[derive(Debug, Drop)]
pub enum FoldTree<EF> {
    /// After the last round: a polynomial, as coefficients, the constant first.
    Leaf(Vec<EF>),
    /// A round: its challenges, each with the tree of the later rounds.
    Node(Vec<(EF, FoldTree<EF>)>),
}

/// The polynomials behind a word and its rolled-in inputs, from those that are left after the
/// last round: the converse of a whole schedule of folds. A round is its log arity and whether
/// an input is rolled in after it. Wherever a row of values folds, round by round, at each
/// challenge of the tree's node, with `beta^(2^log_arity)` times the round's input added to
/// each fold, to rows that fold so at the challenges of the later nodes, and at last to the
/// values of the polynomials at the leaves, the row has one polynomial's values at its own
/// points, and each input those of one at the points of its round. All of them depend on the
/// tree alone. The answer is the word's polynomial, and the inputs' in the order of their rounds.
///
/// Every path of the tree is as long as `rounds`; the node of a round has `2^log_arity`
/// challenges, one more with an input, no two of them equal; the leaves have one length `d`,
/// and the log arities are at least 1. With `s` for the sum of the log arities, the word's
/// polynomial has `d * 2^s` coefficients, and that of an input `d * 2^s'`, `s'` the sum of
/// those after its round. `Err` means that memory was wanting.
///
/// Each node is undone by `unfold` or `unfold_with_input`, from the leaves up, and the later
/// inputs are those of its last subtree; what its subtrees gave is freed then. The calls nest as
/// deep as there are rounds, fewer than 64.
pub fn unfold_tree<EF: Field>(
    alloc: Global,
    rounds: &[(usize, bool)],
    tree: &FoldTree<EF>,
) -> Result<(Vec<EF>, Vec<Vec<EF>>), AllocError>
    requires paths { HasPaths (length rounds.now) (tree_of tree.now) }
    requires betas { HasBetas rounds.now (tree_of tree.now) }
    requires leaves { HasLeaves (leaf_length (tree_of tree.now)) (tree_of tree.now) }
    requires log_arities { All (λ round. 0 < round.0) rounds.now }
    requires log_sum { log_sum rounds.now < 64 }
    requires fits { leaf_length (tree_of tree.now) * 2 ^ log_sum rounds.now < 2 ^ 64 }
    ensures word_length { IfOk result
        (λ u. vec_len u.0 ≡ leaf_length (tree_of tree.now) * 2 ^ log_sum rounds.now) }
    ensures input_lengths { IfOk result (λ u. map (λ v. vec_len v) u.1.items
        ≡ map (λ s. leaf_length (tree_of tree.now) * 2 ^ s) (input_logs rounds.now)) }
    ensures word_coefficients { IfOk result (λ u. u.0.items
        ≡ tree_word EF.ops (leaf_length (tree_of tree.now)) rounds.now (tree_of tree.now)) }
    ensures input_coefficients { IfOk result (λ u. lists u.1.items
        ≡ tree_inputs EF.ops (leaf_length (tree_of tree.now)) rounds.now (tree_of tree.now)) }
    ensures values { IfOk result (λ u. IsTreeUnfolding EF.ops rounds.now (tree_of tree.now)
        u.0.items (lists u.1.items)) }
{
    match tree {
        FoldTree::Leaf(poly) => Ok((Vec::from_slice(alloc, poly)?, Vec::new(alloc))),
        FoldTree::Node(subtrees) => {
            let (log_arity, has_input) = rounds[0];
            let later = &rounds[1..];
            let betas = challenges(alloc, subtrees)?;
            let mut polys = Vec::with_capacity(alloc, subtrees.len())?;
            let mut inputs = Vec::new(alloc);
            for subtree in subtrees {
                let (word, later_inputs) = unfold_tree(alloc, later, &subtree.1)?;
                polys.push(word)?;
                inputs = later_inputs;
            }
            undo_round(alloc, log_arity, has_input, &betas, &polys, inputs)
        }
    }
}

/// Undoes the first round: from the polynomials behind its folds, and those of the later inputs.
fn undo_round<EF: Field>(
    alloc: Global,
    log_arity: usize,
    has_input: bool,
    betas: &[EF],
    polys: &[Vec<EF>],
    later: Vec<Vec<EF>>,
) -> Result<(Vec<EF>, Vec<Vec<EF>>), AllocError>
    requires betas { length betas.now ≡ beta_count (log_arity, has_input) }
    requires distinct { AreDistinct betas.now }
    requires as_many { length polys.now ≡ length betas.now }
    requires one_length { All (λ p. vec_len p ≡ common_length polys.now) polys.now }
    requires fits { common_length polys.now * 2 ^ log_arity < 2 ^ 64 }
    ensures word_length { IfOk result
        (λ u. vec_len u.0 ≡ common_length polys.now * 2 ^ log_arity) }
    ensures input_lengths { IfOk result (λ u. map (λ v. vec_len v) u.1.items
        ≡ with_input has_input (common_length polys.now) (map (λ v. vec_len v) later.items)) }
    ensures word_coefficients { IfOk result (λ u. u.0.items ≡ round_word EF.ops
        (log_arity, has_input) betas.now (lists polys.now) (common_length polys.now)) }
    ensures input_coefficients { IfOk result (λ u. lists u.1.items
        ≡ round_inputs EF.ops (log_arity, has_input) betas.now (lists polys.now)
        (common_length polys.now) (lists later.items)) }
    ensures undone { IfOk result (λ u. IsRoundUnfolding EF.ops (log_arity, has_input) betas.now
        (lists polys.now) u.0.items (lists later.items) (lists u.1.items)) }
{
    if has_input {
        let (word, input) = unfold_with_input(alloc, log_arity, betas, polys)?;
        let mut inputs = later;
        inputs.insert(0, input)?;
        Ok((word, inputs))
    } else {
        let word = unfold(alloc, log_arity, betas, polys)?;
        Ok((word, later))
    }
}

/// The challenges of a node.
pub fn challenges<EF: Field>(
    alloc: Global,
    subtrees: &[(EF, FoldTree<EF>)],
) -> Result<Vec<EF>, AllocError>
    ensures { IfOk result (λ betas. betas.items ≡ map (λ t. t.0) subtrees.now) }
{
    let mut betas = Vec::with_capacity(alloc, subtrees.len())?;
    for subtree in subtrees {
        betas.push(subtree.0)?;
    }
    Ok(betas)
}
