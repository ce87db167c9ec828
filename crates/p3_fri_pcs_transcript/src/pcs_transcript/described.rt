//! The described counts, one after another.

ghost use Rattle.std.specs.Prelude.{◌≡◌, ◌+◌, ◌-◌, ◌^◌, ℕ, ◌∷◌, [], min, MatchOption, OnOk, IfErr};
ghost use Rattle.algebra.specs.Nested.{nested};
ghost use Rattle.p3_fri_pcs_transcript.specs.Claims.{IsClaimFailure};
ghost use Rattle.p3_fri_pcs_transcript.specs.Steps.{widths};

use crate::pcs_transcript::failure::PcsTranscriptFailure;

/// The counts of a shape that no claim was compared with yet, in order, and how many claims were
/// compared.
#[derive(Clone, Copy)]
pub(super) struct DescribedCounts<'a> {
    points: &'a [usize],
    matrices: &'a [Vec<usize>],
    commitments: &'a [Vec<Vec<usize>>],
    opening: usize,
}

impl<'a> DescribedCounts<'a> {
    ghost use Rattle.p3_fri_pcs_transcript.specs.Cursor.{counts_left};

    /// All counts of a shape.
    pub(super) fn new(commitments: &'a [Vec<Vec<usize>>]) -> DescribedCounts<'a>
        ensures counts { counts_left result ≡ widths (nested commitments.now) }
        ensures place { result.opening ≡ 0 }
    {
        DescribedCounts {
            points: &[],
            matrices: &[],
            commitments,
            opening: 0,
        }
    }

    /// The next count.
    fn next(&mut self) -> Option<usize>
        ensures counts { MatchOption result (counts_left self.old ≡ [])
            (λ count. counts_left self.old ≡ count ∷ counts_left self.new) }
        ensures place { self.new.opening ≡ self.old.opening }
    {
        loop {
            if let [count, rest @ ..] = self.points {
                self.points = rest;
                return Some(*count);
            }
            if let [points, rest @ ..] = self.matrices {
                self.points = points.as_slice();
                self.matrices = rest;
            } else if let [matrices, rest @ ..] = self.commitments {
                self.matrices = matrices.as_slice();
                self.commitments = rest;
            } else {
                return None;
            }
        }
    }

    /// Compares a claim of `got` values with the next count. A place past the greatest number is
    /// given as that.
    pub(super) fn compare(&mut self, got: usize) -> Result<(), PcsTranscriptFailure>
        ensures counts { OnOk result (counts_left self.old ≡ got ∷ counts_left self.new) }
        ensures place { OnOk result (self.new.opening ≡ min (self.old.opening + 1) (2 ^ 64 - 1)) }
        ensures fault { IfErr result (λ e.
            (from : ℕ) → self.old.opening ≡ min from (2 ^ 64 - 1) →
            IsClaimFailure from (counts_left self.old) (got ∷ []) e) }
    {
        let opening = self.opening;
        self.opening = opening.saturating_add(1);
        match self.next() {
            Some(expected) => {
                if expected == got {
                    Ok(())
                } else {
                    Err(PcsTranscriptFailure::ClaimedEvaluationCount {
                        opening,
                        expected,
                        got,
                    })
                }
            },
            None => Err(PcsTranscriptFailure::ClaimedEvaluationCount {
                opening,
                expected: 0,
                got,
            }),
        }
    }
}
