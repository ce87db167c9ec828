//! What holds of every tree, as calls that do nothing and whose contracts are theorems.

ghost use Rattle.std.specs.Prelude.{◌≡◌, ◌<◌, ◌^◌, ℕ, List, [], length, slice_index};
ghost use Rattle.std.specs.Prelude.{slice_index_or};
ghost use Rattle.p3_mmcs.specs.Batch.{HasRows, HasShape};
ghost use Rattle.p3_matrix.specs.declared.Dimensions.{Dimensions};
ghost use Rattle.p3_mmcs.specs.Tree.{climb, path_of, root_of, OpensAt, Opens};

use p3_field_core::ElementBytes;

/// In a tree of `2^m` leaves, each leaf and its path lead to the root.
pub fn path_law()
    ensures { (leaves : ℕ → List ℕ) (m index : ℕ) → index < 2 ^ m →
        climb index (leaves index) (path_of leaves m index) ≡ root_of leaves m }
{}

/// What has the shape of an opening has as many sets of rows as indices, and each of these one row
/// of each matrix.
pub fn shape_law<T>()
    ensures sets { (dims : List Dimensions) (indices : List ℕ) (sets : List (List (List T))) →
        HasShape dims indices sets → length sets ≡ length indices }
    ensures each { (dims : List Dimensions) (indices : List ℕ) (sets : List (List (List T)))
        (k : ℕ) →
        HasShape dims indices sets → k < length sets → HasRows dims (slice_index_or sets k []) }
    ensures rows { (dims : List Dimensions) (rows : List (List T)) →
        HasRows dims rows → length rows ≡ length dims }
{}

/// An opening at several indices is one at each of them.
pub fn opens_law<T: ElementBytes>()
    ensures { (commitment : List ℕ) (dims : List Dimensions) (indices : List ℕ)
        (sets : List (List (List T))) (paths : List (List (List ℕ))) (k : ℕ) →
        Opens T.bytes commitment dims indices sets paths → k < length indices →
        OpensAt T.bytes commitment dims (slice_index indices k) (slice_index_or sets k [])
        (slice_index_or paths k []) }
{}
