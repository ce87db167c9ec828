//! The search for a collision of SHA-256 between two openings of one index.

ghost use Rattle.std.specs.Prelude.{◌≡◌, ◌≢◌, ◌↔◌, ◌++◌, ℕ, List, IfOk, MatchOption};
ghost use Rattle.std.specs.Prelude.{IsTrue, IsSome};
ghost use Rattle.sha2.specs.Sha256.{sha256};
ghost use Rattle.algebra.specs.Nested.{lists};
ghost use Rattle.p3_matrix.specs.declared.Dimensions.{Dimensions};
ghost use Rattle.p3_mmcs.specs.Tree.{OpensAt, row_bytes};
ghost use Rattle.p3_mmcs_binding.specs.Collisions.{IsCollision, Collides, CollidesAbove};
ghost use Rattle.p3_mmcs_binding.specs.Collisions.{leaf_message, parent_message};

use p3_field_core::ElementBytes;
use sha2::{Digest, Sha256};
use std::alloc::{AllocError, Global};

/// What the message of a leaf begins with.
const LEAF_TAG: u8 = 0;

/// What the message of a parent begins with.
const PARENT_TAG: u8 = 1;

/// A message of each of two openings.
#[derive(Debug, Drop)]
pub struct Messages {
    /// That of the first opening.
    pub first: Vec<u8>,
    /// That of the second.
    pub second: Vec<u8>,
}

/// The digest of a message.
fn digest_of(message: &[u8]) -> [u8; 32]
    ensures { result ≡ sha256 message.now }
{
    let mut hasher = Sha256::new();
    hasher.update(message);
    hasher.finalize()
}

/// The message of which the digest of a set of rows is taken.
fn leaf_bytes<T: ElementBytes>(alloc: Global, rows: &[Vec<T>]) -> Result<Vec<u8>, AllocError>
    ensures { IfOk result (λ message. message.items ≡ leaf_message T.bytes (lists rows.now)) }
{
    let mut message = Vec::new(alloc);
    message.push(LEAF_TAG)?;
    for row in rows {
        push_row(&mut message, row.as_slice())?;
    }
    Ok(message)
}

/// Appends a row: its length in eight bytes, little endian, and the bytes of its elements.
fn push_row<T: ElementBytes>(message: &mut Vec<u8>, row: &[T]) -> Result<(), AllocError>
    ensures { IfOk result (λ _. message.new.items
        ≡ message.old.items ++ row_bytes T.bytes row.now) }
{
    message.extend_from_slice(&(row.len() as u64).to_le_bytes())?;
    for element in row {
        push_element(message, *element)?;
    }
    Ok(())
}

/// Appends the bytes of an element.
fn push_element<T: ElementBytes>(message: &mut Vec<u8>, element: T) -> Result<(), AllocError>
    ensures { IfOk result (λ _. message.new.items ≡ message.old.items ++ T.bytes element) }
{
    for index in 0..T::LEN {
        message.push(element.byte(index))?;
    }
    Ok(())
}

/// The message of which the digest of a parent is taken.
fn parent_bytes(
    alloc: Global,
    index: usize,
    digest: &[u8; 32],
    sibling: &[u8; 32],
) -> Result<Vec<u8>, AllocError>
    ensures { IfOk result (λ message.
        message.items ≡ parent_message index digest.now sibling.now) }
{
    let mut message = Vec::new(alloc);
    message.push(PARENT_TAG)?;
    if index % 2 == 0 {
        message.extend_from_slice(digest.as_slice())?;
        message.extend_from_slice(sibling.as_slice())?;
    } else {
        message.extend_from_slice(sibling.as_slice())?;
        message.extend_from_slice(digest.as_slice())?;
    }
    Ok(message)
}

/// Whether these messages are different and have one digest.
fn collide(first: &[u8], second: &[u8]) -> bool
    ensures { IsTrue result ↔ IsCollision first.now second.now }
{
    first != second && digest_of(first).as_slice() == digest_of(second).as_slice()
}

/// The first collision on the ways up of two digests at `index`.
fn collision_above(
    alloc: Global,
    index: usize,
    digests: ([u8; 32], [u8; 32]),
    path: &[[u8; 32]],
    other: &[[u8; 32]],
) -> Result<Option<Messages>, AllocError>
    ensures { IfOk result (λ found. MatchOption found
        (¬ (CollidesAbove index digests.0 digests.1 path.now other.now))
        (λ m. IsCollision m.first.items m.second.items)) }
{
    let (mut digest, mut opposite) = digests;
    let mut at = index;
    for level in 0..path.len().min(other.len()) {
        let first = parent_bytes(alloc, at, &digest, &path[level])?;
        let second = parent_bytes(alloc, at, &opposite, &other[level])?;
        if collide(first.as_slice(), second.as_slice()) {
            return Ok(Some(Messages { first, second }));
        }
        digest = digest_of(first.as_slice());
        opposite = digest_of(second.as_slice());
        at /= 2;
    }
    Ok(None)
}

/// The first collision from the leaves of two openings of `index` on.
fn first_collision<T: ElementBytes>(
    alloc: Global,
    index: usize,
    rows: &[Vec<T>],
    path: &[[u8; 32]],
    other: &[Vec<T>],
    other_path: &[[u8; 32]],
) -> Result<Option<Messages>, AllocError>
    ensures { IfOk result (λ found. MatchOption found
        (¬ (Collides T.bytes index (lists rows.now) path.now (lists other.now) other_path.now))
        (λ m. IsCollision m.first.items m.second.items)) }
{
    let first = leaf_bytes(alloc, rows)?;
    let second = leaf_bytes(alloc, other)?;
    if collide(first.as_slice(), second.as_slice()) {
        return Ok(Some(Messages { first, second }));
    }
    let digests = (digest_of(first.as_slice()), digest_of(second.as_slice()));
    collision_above(alloc, index, digests, path, other_path)
}

/// The first two messages of one level, of those hashed from the leaves to the root of two openings
/// of `index`, that are different and have one digest. There are such where both openings stand
/// under one commitment and their rows differ.
pub fn find_collision<T: ElementBytes>(
    alloc: Global,
    index: usize,
    rows: &[Vec<T>],
    path: &[[u8; 32]],
    other: &[Vec<T>],
    other_path: &[[u8; 32]],
) -> Result<Option<Messages>, AllocError>
    ensures exact { IfOk result (λ found. MatchOption found
        (¬ (Collides T.bytes index (lists rows.now) path.now (lists other.now) other_path.now))
        (λ m. IsCollision m.first.items m.second.items)) }
    ensures found { IfOk result (λ found. (commitment : List ℕ) (dims : List Dimensions) →
        OpensAt T.bytes commitment dims index (lists rows.now) path.now →
        OpensAt T.bytes commitment dims index (lists other.now) other_path.now →
        lists rows.now ≢ lists other.now → IsSome found) }
{
    first_collision(alloc, index, rows, path, other, other_path)
}
