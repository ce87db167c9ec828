//! Trees of rounds.

use crate::lists::{elements, polynomials};
use p3_converse::{
    FoldTree, challenges_fit, leaf_length, leaves_fit, log_arities_fit, log_arity_sum, paths_fit,
    unfold_tree, unfolds_within_range,
};
use p3_field::{BabyBear, Field};
use std::alloc::Global;
use std::process::Abort;

/// Challenges, each with the coefficients of a leaf.
type Leaves = &'static [(u64, &'static [u64])];

/// What stands under a challenge of a tree's first round.
#[derive(Clone, Copy)]
enum Below {
    Leaf(&'static [u64]),
    Round(Leaves),
}

/// A tree by its challenges and what stands under each, rounds, whether its paths, its challenges
/// and the lengths of its leaves are those of the rounds, and what it unfolds to if all are: the
/// word's polynomial, and that of each input.
#[derive(Clone, Copy)]
struct Case {
    name: &'static str,
    tree: &'static [(u64, Below)],
    rounds: &'static [(usize, bool)],
    fits: (bool, bool, bool),
    unfolded: Option<(&'static [u64], &'static [&'static [u64]])>,
}

static CASES: [Case; 5] = [
    Case {
        name: "two rounds",
        tree: &[
            (0, Below::Round(&[(0, &[1]), (1, &[3])])),
            (1, Below::Round(&[(0, &[4]), (1, &[10])])),
        ],
        rounds: &[(1, false), (1, false)],
        fits: (true, true, true),
        unfolded: Some((&[1, 3, 2, 4], &[])),
    },
    Case {
        name: "two rounds with an input",
        tree: &[
            (0, Below::Round(&[(0, &[5]), (1, &[5])])),
            (1, Below::Round(&[(0, &[35]), (1, &[35])])),
            (2, Below::Round(&[(0, &[63]), (1, &[63])])),
        ],
        rounds: &[(1, true), (1, false)],
        fits: (true, true, true),
        unfolded: Some((&[5, 31, 0, 0], &[&[2_013_265_920, 0]])),
    },
    Case {
        name: "a repeated challenge",
        tree: &[(7, Below::Leaf(&[1])), (7, Below::Leaf(&[2]))],
        rounds: &[(1, false)],
        fits: (true, false, true),
        unfolded: None,
    },
    Case {
        name: "leaves of two lengths",
        tree: &[(0, Below::Leaf(&[1])), (1, Below::Leaf(&[2, 3]))],
        rounds: &[(1, false)],
        fits: (true, true, false),
        unfolded: None,
    },
    Case {
        name: "one round on a path and two on the other",
        tree: &[
            (0, Below::Round(&[(0, &[1]), (1, &[3])])),
            (1, Below::Leaf(&[4])),
        ],
        rounds: &[(1, false), (1, false)],
        fits: (false, true, true),
        unfolded: None,
    },
];

/// The tree of these challenges.
fn tree_of(rt: &impl Abort, alloc: Global, tree: &[(u64, Below)]) -> FoldTree<BabyBear> {
    let mut subtrees = Vec::new(alloc);
    for (beta, below) in tree {
        let subtree = match below {
            Below::Leaf(numbers) => FoldTree::Leaf(elements(rt, alloc, *numbers)),
            Below::Round(leaves) => {
                let mut round = Vec::new(alloc);
                for (beta, numbers) in *leaves {
                    let leaf = FoldTree::Leaf(elements(rt, alloc, *numbers));
                    round
                        .push((BabyBear::from_u64(*beta), leaf))
                        .expect(rt, "memory");
                }
                FoldTree::Node(round)
            },
        };
        subtrees
            .push((BabyBear::from_u64(*beta), subtree))
            .expect(rt, "memory");
    }
    FoldTree::Node(subtrees)
}

/// Whether the case's tree fits the rounds as it says, and unfolds so.
fn is_met(rt: &impl Abort, alloc: Global, case: &Case) -> bool {
    let rounds = case.rounds;
    let tree = tree_of(rt, alloc, case.tree);
    let length = leaf_length(&tree);
    let have_paths = paths_fit(rounds, &tree);
    let have_challenges = challenges_fit(alloc, rounds, &tree).expect(rt, "memory");
    let have_length = leaves_fit(length, &tree);
    let is_fit = (have_paths, have_challenges, have_length) == case.fits;
    match case.unfolded {
        Some((word, inputs)) => {
            if !have_paths
                || !have_challenges
                || !have_length
                || !log_arities_fit(rounds)
                || !unfolds_within_range(length, log_arity_sum(rounds))
            {
                rt.panic(case.name);
            }
            let (found, found_inputs) = unfold_tree(alloc, rounds, &tree).expect(rt, "memory");
            is_fit
                & (found == elements(rt, alloc, word))
                & (found_inputs == polynomials(rt, alloc, inputs))
        },
        None => is_fit,
    }
}

#[test]
fn trees_unfold_or_are_caught(rt: HostRuntime) {
    for case in &CASES {
        assert!(rt; is_met(&rt, rt.alloc(), case), "{}", case.name);
    }
    let are_within_range = [
        log_arities_fit(&[(1, false), (0, true)]),
        log_arities_fit(&[(60, false), (4, true)]),
        log_arities_fit(&[(60, false), (3, true)]),
        unfolds_within_range(1, 63),
        unfolds_within_range(2, 63),
    ];
    assert!(rt; are_within_range == [false, false, true, true, false]);
}
