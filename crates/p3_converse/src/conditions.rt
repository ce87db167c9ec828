//! What the calls of this crate ask of their arguments, as tests.

ghost use Rattle.std.specs.Prelude.{◌≡◌, ◌↔◌, ◌*◌, ◌^◌, ◌<◌, IsTrue, All, IfOk, length, vec_len};
ghost use Rattle.algebra.specs.Interpolation.{AreDistinct};
ghost use Rattle.p3_converse.specs.Branches.{log_sum};
ghost use Rattle.p3_converse.specs.Trees.{tree_of, leaf_length, HasPaths, HasLeaves, HasBetas};
ghost use Rattle.p3_converse.specs.Trees.{beta_count};
ghost use Rattle.p3_converse.specs.Unfolding.{common_length};

use crate::tree::{FoldTree, challenges};
use p3_field_core::Field;
use std::alloc::{AllocError, Global};

/// Whether no two of the points are equal.
pub fn are_distinct<F: Field>(points: &[F]) -> bool
    ensures { IsTrue result ↔ AreDistinct points.now }
{
    for later in 0..points.len() {
        for earlier in 0..later {
            if points[earlier] == points[later] {
                return false;
            }
        }
    }
    true
}

/// Whether the polynomials have one length.
pub fn have_one_length<F: Field>(polys: &[Vec<F>]) -> bool
    ensures { IsTrue result ↔ All (λ p. vec_len p ≡ common_length polys.now) polys.now }
{
    for poly in polys {
        if poly.len() != polys[0].len() {
            return false;
        }
    }
    true
}

/// Whether a polynomial of `length` coefficients unfolds, by this log arity, to a number of them
/// that is a `usize`.
pub fn unfolds_within_range(length: usize, log_arity: usize) -> bool
    requires log_arity { log_arity < 64 }
    ensures { IsTrue result ↔ (length * 2 ^ log_arity < 2 ^ 64) }
{
    length.checked_mul(1 << log_arity).is_some()
}

/// Whether each round's log arity is at least 1, and their sum below 64.
pub fn log_arities_fit(rounds: &[(usize, bool)]) -> bool
    ensures { IsTrue result
        ↔ (All (λ round. 0 < round.0) rounds.now × (log_sum rounds.now < 64)) }
{
    let mut sum = 0;
    for round in rounds {
        if round.0 == 0 || round.0 > 63 - sum {
            return false;
        }
        sum += round.0;
    }
    true
}

/// The sum of the rounds' log arities.
pub fn log_arity_sum(rounds: &[(usize, bool)]) -> usize
    requires fits { log_sum rounds.now < 64 }
    ensures { result ≡ log_sum rounds.now }
{
    let mut sum = 0;
    for round in rounds {
        sum += round.0;
    }
    sum
}

/// Whether every path of the tree is as long as `rounds`. It goes no deeper.
pub fn paths_fit<EF: Field>(rounds: &[(usize, bool)], tree: &FoldTree<EF>) -> bool
    ensures { IsTrue result ↔ HasPaths (length rounds.now) (tree_of tree.now) }
{
    match tree {
        FoldTree::Leaf(_) => rounds.is_empty(),
        FoldTree::Node(subtrees) => {
            if rounds.is_empty() {
                return false;
            }
            for subtree in subtrees {
                if !paths_fit(&rounds[1..], &subtree.1) {
                    return false;
                }
            }
            true
        }
    }
}

/// The length of the tree's first leaf, 0 if it has none.
pub fn leaf_length<EF: Field>(tree: &FoldTree<EF>) -> usize
    ensures { result ≡ leaf_length (tree_of tree.now) }
{
    match tree {
        FoldTree::Leaf(poly) => poly.len(),
        FoldTree::Node(subtrees) => {
            if subtrees.is_empty() {
                return 0;
            }
            leaf_length(&subtrees[0].1)
        }
    }
}

/// Whether the tree's leaves have this length.
pub fn leaves_fit<EF: Field>(length: usize, tree: &FoldTree<EF>) -> bool
    ensures { IsTrue result ↔ HasLeaves length (tree_of tree.now) }
{
    match tree {
        FoldTree::Leaf(poly) => poly.len() == length,
        FoldTree::Node(subtrees) => {
            for subtree in subtrees {
                if !leaves_fit(length, &subtree.1) {
                    return false;
                }
            }
            true
        }
    }
}

/// Whether the node of each round has as many challenges as it takes, no two of them equal. `Err`
/// means that memory was wanting.
pub fn challenges_fit<EF: Field>(
    alloc: Global,
    rounds: &[(usize, bool)],
    tree: &FoldTree<EF>,
) -> Result<bool, AllocError>
    ensures { IfOk result (λ fit. IsTrue fit ↔ HasBetas rounds.now (tree_of tree.now)) }
{
    match tree {
        FoldTree::Leaf(_) => Ok(true),
        FoldTree::Node(subtrees) => {
            if rounds.is_empty() {
                return Ok(false);
            }
            let (log_arity, has_input) = rounds[0];
            let betas = challenges(alloc, subtrees)?;
            if !is_challenge_count(betas.len(), log_arity, has_input) {
                return Ok(false);
            }
            if !are_distinct(&betas) {
                return Ok(false);
            }
            for subtree in subtrees {
                if !challenges_fit(alloc, &rounds[1..], &subtree.1)? {
                    return Ok(false);
                }
            }
            Ok(true)
        }
    }
}

/// Whether a round takes so many challenges.
fn is_challenge_count(count: usize, log_arity: usize, has_input: bool) -> bool
    ensures { IsTrue result ↔ (count ≡ beta_count (log_arity, has_input)) }
{
    if log_arity >= 64 {
        return false;
    }
    let arity = 1 << log_arity;
    if has_input {
        count > 0 && count - 1 == arity
    } else {
        count == arity
    }
}
