//! Trees over up to 32 leaves, whose digests are made eight at a time and one by one, against roots
//! that were computed with the hashlib module of Python's standard library.

use crate::openings::ask;
use crate::sha256_mmcs::element;
use p3_field::BabyBear;
use p3_matrix::RowMajorMatrix;
use std::alloc::Global;
use std::process::Abort;

/// A matrix by its width, its height and its numbers: runs of them, each from the first to before
/// the second.
type Numbers = (usize, usize, &'static [(u64, u64)]);

/// Matrices, the greatest height, indices at which they are opened, the numbers of all rows that
/// these open, and the root.
#[derive(Clone, Copy)]
pub(crate) struct Tree {
    pub name: &'static str,
    pub matrices: &'static [Numbers],
    pub max_height: usize,
    pub indices: &'static [usize],
    pub rows: &'static [u64],
    pub root: [u8; 32],
}

pub(crate) static TREES: [Tree; 9] = [
    Tree {
        name: "no matrix",
        matrices: &[],
        max_height: 1,
        indices: &[0],
        rows: &[],
        root: [
            0x6e, 0x34, 0x0b, 0x9c, 0xff, 0xb3, 0x7a, 0x98, 0x9c, 0xa5, 0x44, 0xe6, 0xbb, 0x78,
            0x0a, 0x2c, 0x78, 0x90, 0x1d, 0x3f, 0xb3, 0x37, 0x38, 0x76, 0x85, 0x11, 0xa3, 0x06,
            0x17, 0xaf, 0xa0, 0x1d,
        ],
    },
    Tree {
        name: "two heights",
        matrices: &[
            (2, 4, &[(1, 9)]),
            (1, 2, &[(9, 10), (2_013_265_920, 2_013_265_921)]),
        ],
        max_height: 4,
        indices: &[3, 0, 3],
        rows: &[7, 8, 2_013_265_920, 1, 2, 9, 7, 8, 2_013_265_920],
        root: [
            0xd0, 0x4d, 0x4d, 0x1f, 0x91, 0xc2, 0x34, 0x1f, 0xd0, 0x0c, 0xdd, 0xda, 0x0b, 0xce,
            0x0b, 0xe3, 0x07, 0x0f, 0x7d, 0x3b, 0xb5, 0x91, 0x8d, 0xfd, 0x00, 0x80, 0xec, 0x78,
            0x04, 0xe8, 0xd7, 0xb4,
        ],
    },
    Tree {
        name: "rows longer than a block",
        matrices: &[(20, 2, &[(0, 20), (1000, 1020)])],
        max_height: 2,
        indices: &[1],
        rows: &[
            1000, 1001, 1002, 1003, 1004, 1005, 1006, 1007, 1008, 1009, 1010, 1011, 1012, 1013,
            1014, 1015, 1016, 1017, 1018, 1019,
        ],
        root: [
            0x63, 0xa0, 0x22, 0x68, 0x26, 0xfd, 0xa1, 0x5f, 0x70, 0xc1, 0x49, 0x1b, 0xbe, 0xde,
            0x4c, 0xc1, 0x31, 0x2f, 0x19, 0xc5, 0x6a, 0xed, 0x8c, 0x50, 0x62, 0x1e, 0xd2, 0xab,
            0x7b, 0x43, 0x6f, 0xec,
        ],
    },
    Tree {
        name: "one leaf",
        matrices: &[(3, 1, &[(1, 4)]), (1, 1, &[(4, 5)]), (2, 1, &[(5, 7)])],
        max_height: 1,
        indices: &[0],
        rows: &[1, 2, 3, 4, 5, 6],
        root: [
            0x21, 0x21, 0x56, 0x90, 0xb3, 0xbb, 0x4c, 0xbc, 0x60, 0xbd, 0xb9, 0xd8, 0x8e, 0xdc,
            0x10, 0x80, 0x1b, 0x81, 0x7f, 0x14, 0x63, 0x31, 0x50, 0x1b, 0xe8, 0x22, 0x9f, 0xb5,
            0x29, 0x30, 0xbc, 0xaf,
        ],
    },
    Tree {
        name: "two leaves",
        matrices: &[(3, 2, &[(1, 7)]), (1, 1, &[(7, 8)]), (2, 1, &[(8, 10)])],
        max_height: 2,
        indices: &[1],
        rows: &[4, 5, 6, 7, 8, 9],
        root: [
            0xcb, 0xc9, 0x0f, 0xd5, 0x7a, 0xff, 0x5a, 0x69, 0x70, 0x1e, 0xac, 0x3d, 0x0b, 0x8a,
            0xe7, 0x93, 0xfb, 0xac, 0xb2, 0x8b, 0xf3, 0x38, 0xc1, 0x3d, 0x7e, 0x5a, 0xa3, 0xd2,
            0x7d, 0x88, 0xf4, 0xeb,
        ],
    },
    Tree {
        name: "four leaves",
        matrices: &[(3, 4, &[(1, 13)]), (1, 2, &[(13, 15)]), (2, 1, &[(15, 17)])],
        max_height: 4,
        indices: &[2],
        rows: &[7, 8, 9, 14, 15, 16],
        root: [
            0x40, 0x28, 0x8c, 0xe6, 0xa7, 0xfb, 0x34, 0xf3, 0x0a, 0x88, 0x56, 0x16, 0x20, 0x12,
            0x33, 0xf8, 0xc9, 0x4c, 0x30, 0x9a, 0x7e, 0x77, 0x8f, 0x3e, 0xc9, 0x2c, 0x52, 0xe1,
            0xa0, 0xd0, 0x37, 0xf7,
        ],
    },
    Tree {
        name: "eight leaves",
        matrices: &[(3, 8, &[(1, 25)]), (1, 2, &[(25, 27)]), (2, 1, &[(27, 29)])],
        max_height: 8,
        indices: &[3],
        rows: &[10, 11, 12, 25, 27, 28],
        root: [
            0x6c, 0x95, 0x88, 0xd5, 0x96, 0x25, 0xe7, 0x38, 0x67, 0x85, 0xc4, 0x7f, 0x71, 0x10,
            0x90, 0x32, 0xb7, 0x5e, 0x53, 0x4d, 0x98, 0x06, 0x1c, 0xa2, 0x61, 0x54, 0xde, 0xb6,
            0xe8, 0x93, 0x56, 0xac,
        ],
    },
    Tree {
        name: "sixteen leaves",
        matrices: &[
            (3, 16, &[(1, 49)]),
            (1, 4, &[(49, 53)]),
            (2, 1, &[(53, 55)]),
        ],
        max_height: 16,
        indices: &[5],
        rows: &[16, 17, 18, 50, 53, 54],
        root: [
            0xb5, 0x51, 0x00, 0xaa, 0x5b, 0x9a, 0xb2, 0x2c, 0xbb, 0x2d, 0xab, 0xb6, 0xe9, 0x1d,
            0x04, 0x51, 0x36, 0xb3, 0xd7, 0x6f, 0xec, 0xd1, 0x04, 0x4d, 0x75, 0x3c, 0x91, 0x32,
            0x00, 0x29, 0x89, 0x27,
        ],
    },
    Tree {
        name: "32 leaves",
        matrices: &[
            (3, 32, &[(1, 97)]),
            (1, 4, &[(97, 101)]),
            (2, 1, &[(101, 103)]),
        ],
        max_height: 32,
        indices: &[13],
        rows: &[40, 41, 42, 98, 101, 102],
        root: [
            0x19, 0x2b, 0xde, 0x0b, 0x85, 0x8e, 0x4a, 0xb3, 0x8c, 0x38, 0x74, 0x30, 0xf1, 0x85,
            0x34, 0x74, 0x5b, 0x7e, 0xe1, 0xd0, 0x67, 0x10, 0x32, 0x3a, 0xaa, 0x31, 0x2b, 0x0a,
            0x73, 0x60, 0x0a, 0xfd,
        ],
    },
];

/// A matrix of these numbers.
fn matrix_of(rt: &impl Abort, alloc: Global, numbers: Numbers) -> RowMajorMatrix<BabyBear> {
    let (width, height, runs) = numbers;
    let mut values = Vec::new(alloc);
    for (first, end) in runs {
        for number in *first..*end {
            values.push(element(number)).expect(rt, "memory");
        }
    }
    assert!(rt; width > 0 && values.len() % width == 0);
    let matrix = RowMajorMatrix::new(values, width);
    assert!(rt; matrix.height() == height);
    matrix
}

/// The tree's matrices.
pub(crate) fn matrices_of(
    rt: &impl Abort,
    alloc: Global,
    tree: &Tree,
) -> Vec<RowMajorMatrix<BabyBear>> {
    let mut matrices = Vec::new(alloc);
    for numbers in tree.matrices {
        let matrix = matrix_of(rt, alloc, *numbers);
        matrices.push(matrix).expect(rt, "memory");
    }
    matrices
}

#[test]
fn roots_and_rows_of_trees(rt: HostRuntime) {
    for tree in &TREES {
        let (numbers, verdict) = ask(&rt, rt.alloc(), tree, tree.indices, tree.indices, &[]);
        assert!(rt;
            numbers.as_slice() == tree.rows && verdict == Ok(()),
            "{}",
            tree.name
        );
    }
}
