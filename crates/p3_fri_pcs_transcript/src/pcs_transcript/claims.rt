//! Claims, compared with the described counts and absorbed.

ghost use Rattle.std.specs.Prelude.{◌≡◌, IfErr, OnOk, map, length};
ghost use Rattle.p3_challenger_fs.specs.Script.{remaining};
ghost use Rattle.p3_fri_pcs_transcript.specs.Absorption.{ClaimsThen, Absorbs};
ghost use Rattle.p3_fri_pcs_transcript.specs.Claims.{IsClaimFailure};
ghost use Rattle.p3_fri_pcs_transcript.specs.Counts.{lists_of_claims};
ghost use Rattle.p3_fri_pcs_transcript.specs.Cursor.{counts_left, IsCompared};

use crate::pcs_transcript::described::DescribedCounts;
use crate::pcs_transcript::failure::PcsTranscriptFailure;
use p3_challenger_core::FieldChallenger;
use p3_challenger_fs::Script;
use p3_field_core::{ExtensionField, Field};
use p3_mmcs::CommitmentOpening;

/// Absorbs the claims in the order of commitments, matrices and points, each once its number of
/// values is the next described one. None was compared before.
pub(super) fn absorb_claims<F: Field, EF: ExtensionField<F>, C: FieldChallenger<F>, Com, Domain>(
    script: &mut Script,
    challenger: &mut C,
    described: &mut DescribedCounts<'_>,
    claims: &[CommitmentOpening<EF, Com, Domain>],
) -> Result<(), PcsTranscriptFailure>
    requires next { ClaimsThen EF.DIMENSION (counts_left described.old) (remaining script.old) }
    requires first { described.old.opening ≡ 0 }
    ensures compared { OnOk result
        (IsCompared described.old described.new (lists_of_claims claims.now)) }
    ensures absorbed { OnOk result
        (Absorbs C.observed EF.coefficients EF.DIMENSION script.old script.new
        challenger.old challenger.new (lists_of_claims claims.now)) }
    ensures fault { IfErr result (IsClaimFailure 0 (counts_left described.old)
        (map length (lists_of_claims claims.now))) }
{
    for claim in claims {
        for matrix in &claim.matrices {
            for point in &matrix.points {
                let values = point.values.as_slice();
                match described.compare(values.len()) {
                    Ok(()) => script.observe_extensions(challenger, values),
                    Err(failure) => return Err(failure),
                }
            }
        }
    }
    Ok(())
}
