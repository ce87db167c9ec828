//! Laws of streams, as a call that does nothing and whose contract is a theorem.

ghost use Rattle.p3_challenger_fs.specs.Description.{Description};
ghost use Rattle.p3_challenger_fs.specs.StreamLaws.{IsDeterminedByStream, FitsWhereShort};

/// The stream of a description determines the description, where eight bytes hold each of its
/// numbers, as they hold each `usize`, its texts' lengths and the number of its steps; for these it
/// is enough that they hold the stream's length.
pub fn seed_stream_law()
    ensures determined { (a b : Description) → IsDeterminedByStream a b }
    ensures short { (d : Description) → FitsWhereShort d }
{}
