//! Calls of the converse of folding.

use crate::answer::{Fault, Name, Result, tell};
use crate::call::Interpolation;
use crate::matrices::points;
use p3_converse::{
    FoldTree, are_distinct, challenges_fit, have_one_length, leaf_length, leaves_fit,
    log_arities_fit, log_arity_sum, paths_fit, unbatch, unfold, unfold_tree, unfold_with_input,
    unfolds_within_range, unquotient,
};
use p3_field::{BabyBear4, Field, shifted_powers};
use std::alloc::{AllocError, Global};

type Tree = FoldTree<BabyBear4>;

/// A call that interpolates, of one polynomial for each of as many challenges as it takes.
pub fn interpolate(rt: &HostRuntime, name: Name, call: &Interpolation) -> Result<()> {
    let alloc = rt.alloc();
    let numbers = [
        BabyBear4::ZERO,
        BabyBear4::ONE,
        BabyBear4::TWO,
        BabyBear4::from_u64(3),
        BabyBear4::from_u64(4),
    ];
    let (begin, end, num_coefficients) = match call {
        Interpolation::Unfold => (0, 4, 3),
        Interpolation::UnfoldWithInput => (0, 5, 3),
        Interpolation::Unbatch => (1, 4, 4),
    };
    let challenges = &numbers[begin..end];
    let polys = points(alloc, challenges.len(), num_coefficients)?;
    let [first, ..] = polys.as_slice() else {
        return Err(Fault::Inputs);
    };
    if first.len() > 8 || !have_one_length(&polys) || !are_distinct(challenges) {
        return Err(Fault::Inputs);
    }
    match call {
        Interpolation::Unfold => {
            let answer = unfold(alloc, 2, challenges, &polys);
            tell(rt, name, &answer)
        }
        Interpolation::UnfoldWithInput => {
            let answer = unfold_with_input(alloc, 2, challenges, &polys);
            tell(rt, name, &answer)
        }
        Interpolation::Unbatch => {
            let answer = unbatch(alloc, challenges, &polys);
            tell(rt, name, &answer)
        }
    }
}

/// `unquotient`.
pub fn tell_unquotient(rt: &HostRuntime, name: Name) -> Result<()> {
    let (shift, z) = (BabyBear4::from_u64(3), BabyBear4::from_u64(5));
    if shift.is_zero() {
        return Err(Fault::Inputs);
    }
    let quotient = [BabyBear4::ONE, BabyBear4::TWO, shift];
    let answer = unquotient(rt.alloc(), shift, z, BabyBear4::from_u64(7), &quotient);
    tell(rt, name, &answer)
}

/// A node over three nodes over two leaves each.
fn tree(alloc: Global) -> std::result::Result<Tree, AllocError> {
    let point = BabyBear4::GENERATOR;
    let mut nodes = Vec::with_capacity(alloc, 3)?;
    for index in 0..3 {
        let mut leaves = Vec::with_capacity(alloc, 2)?;
        for index in 0..2 {
            let leaf = shifted_powers(alloc, point, point, 2)?;
            leaves.push((BabyBear4::from_u64(index), FoldTree::Leaf(leaf)))?;
        }
        nodes.push((BabyBear4::from_u64(index), FoldTree::Node(leaves)))?;
    }
    Ok(FoldTree::Node(nodes))
}

/// `unfold_tree`.
pub fn tell_unfold_tree(rt: &HostRuntime, name: Name) -> Result<()> {
    let (tree, rounds) = (tree(rt.alloc())?, [(1, true), (1, false)]);
    let length = leaf_length(&tree);
    if !log_arities_fit(&rounds)
        || !paths_fit(&rounds, &tree)
        || !leaves_fit(length, &tree)
        || !unfolds_within_range(length, log_arity_sum(&rounds))
        || !challenges_fit(rt.alloc(), &rounds, &tree)?
    {
        return Err(Fault::Inputs);
    }
    let answer = unfold_tree(rt.alloc(), &rounds, &tree);
    tell(rt, name, &answer)
}
