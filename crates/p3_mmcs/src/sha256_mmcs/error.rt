//! Why an opening is refused.

use thiserror::Error;

/// Why an opening is refused: for a number of row sets or paths, or for what is shown at an index.
#[derive(Clone, Copy, Debug, PartialEq, Eq, Error)]
pub enum Sha256MmcsError {
    /// There aren't as many sets of rows, or not as many paths, as indices.
    #[error("the sets of rows or the paths are not as many as the indices")]
    QueryCount,
    /// A set doesn't have as many rows as there are matrices.
    #[error("the rows of a set are not as many as the matrices")]
    MatrixCount,
    /// A row's length isn't the width of its matrix.
    #[error("a row's length is not the width of its matrix")]
    RowWidth,
    /// A path doesn't have as many digests as the tree has layers above its leaves.
    #[error("a path's length is not the logarithm of the greatest height")]
    PathLength,
    /// The rows and the path at an index lead to another root than the commitment.
    #[error("a path does not lead to the commitment")]
    RootMismatch,
}
