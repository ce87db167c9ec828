//! That openings bind, as calls that do nothing and whose contracts are theorems.

ghost use Rattle.std.specs.Prelude.{◌≡◌, ◌≢◌, ℕ, List};
ghost use Rattle.p3_matrix.specs.declared.Dimensions.{Dimensions};
ghost use Rattle.p3_mmcs.specs.Tree.{OpensAt, Opens};
ghost use Rattle.p3_mmcs_binding.specs.Collisions.{Collides, NoneCollides};

use p3_field_core::ElementBytes;

/// Two openings of one index under one commitment, with different rows, collide: among the messages
/// that are hashed from their leaves to the root, some two of one level are different and have one
/// digest.
pub fn collisions_law<T: ElementBytes>()
    ensures { (commitment : List ℕ) (dims : List Dimensions) (index : ℕ)
        (set : List (List T)) (path : List (List ℕ))
        (other : List (List T)) (other_path : List (List ℕ)) →
        OpensAt T.bytes commitment dims index set path →
        OpensAt T.bytes commitment dims index other other_path → set ≢ other →
        Collides T.bytes index set path other other_path }
{}

/// Two openings of the same indices under one commitment have the same rows, or collide at some of
/// these indices.
pub fn binding_law<T: ElementBytes>()
    ensures { (commitment : List ℕ) (dims : List Dimensions) (indices : List ℕ)
        (sets : List (List (List T))) (paths : List (List (List ℕ)))
        (others : List (List (List T))) (other_paths : List (List (List ℕ))) →
        Opens T.bytes commitment dims indices sets paths →
        Opens T.bytes commitment dims indices others other_paths →
        NoneCollides T.bytes indices sets paths others other_paths → sets ≡ others }
{}
