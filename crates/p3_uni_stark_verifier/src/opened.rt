//! What is asked of opened values once the challenges are drawn.

ghost use Rattle.std.specs.Prelude.{◌≡◌, ◌≢◌, ◌≤◌, ◌^◌, ◌↔◌, length, All, IsTrue};
ghost use Rattle.std.specs.Prelude.{IsOk, IfOk, IfErr};
ghost use Rattle.stark_algebra.specs.Selectors.{zerofier};
ghost use Rattle.p3_periodic.specs.Columns.{HasPeriod};
ghost use Rattle.p3_uni_stark_verifier.specs.Inputs.{IsReady};
ghost use Rattle.p3_uni_stark_verifier.specs.Opened.{ArePeriodic, Agrees, PeriodicFault};

use crate::chunks::with_hiding;
use crate::error::VerificationError;
use crate::proof::{Proof, Statement};
use crate::setting::StarkField;
use p3_air::Window;
use p3_dft::TwoAdicSubgroupDft;
use p3_field_core::{
    ExtensionField, Field, PrimeField64, TwoAdicField, TwoAdicMultiplicativeCoset,
};
use p3_periodic::{PeriodicError, PeriodicEvaluator, TwoAdicPeriodicEvaluator};
use p3_uni_stark_identity::{Challenges, identity_holds, quotient_chunk_domains};
use std::alloc::{AllocError, Global};

/// The subgroup of `2^log_size` points.
pub fn subgroup<F: TwoAdicField>(log_size: usize) -> TwoAdicMultiplicativeCoset<F>
    requires within_two_adicity { log_size ≤ F.TWO_ADICITY }
    ensures shift { result.shift ≡ F.ONE }
    ensures size { result.log_size ≡ log_size }
{
    TwoAdicMultiplicativeCoset {
        shift: F::ONE,
        log_size,
    }
}

/// The values of the periodic columns at a point.
pub(crate) fn periodic_values<
    F: TwoAdicField + PrimeField64,
    EF: ExtensionField<F>,
    Dft: TwoAdicSubgroupDft<F> + Default + Drop,
    OpeningError,
>(
    alloc: Global,
    columns: &[Vec<F>],
    log_height: usize,
    point: EF,
) -> Result<Vec<EF>, VerificationError<OpeningError>>
    requires within_two_adicity { log_height ≤ F.TWO_ADICITY }
    ensures periods { IsOk result → All (HasPeriod (2 ^ log_height)) columns.now }
    ensures values { IfOk result (λ values.
        ArePeriodic ⟦<EF as StarkField<F>>⟧.fields log_height columns.now point values.items) }
    ensures err { IfErr result (PeriodicFault (2 ^ log_height) columns.now) }
{
    let domain = subgroup::<F>(log_height);
    let found = TwoAdicPeriodicEvaluator::<Dft>::eval_at_point::<EF>(
        alloc, columns, &domain, point,
    );
    match found {
        Ok(values) => Ok(values),
        Err(PeriodicError::NotPowerOfTwo { column, length }) => {
            Err(VerificationError::InvalidPeriodicColumns(PeriodicError::NotPowerOfTwo {
                column,
                length,
            }))
        },
        Err(
            PeriodicError::DoesNotDivide {
                column,
                length,
                trace_height,
            },
        ) => Err(VerificationError::InvalidPeriodicColumns(PeriodicError::DoesNotDivide {
            column,
            length,
            trace_height,
        })),
        Err(PeriodicError::OutOfMemory) => Err(VerificationError::OutOfMemory),
    }
}

/// Whether all constraints together, where they see the opened values, agree with the quotient that
/// the values of all chunks recombine to.
pub(crate) fn agrees<F: TwoAdicField + PrimeField64, EF: ExtensionField<F>, Com: Copy, Opening>(
    alloc: Global,
    statement: &Statement<'_, F, Com>,
    proof: &Proof<EF, Com, Opening>,
    log_chunks: usize,
    zk: bool,
    challenges: Challenges<EF>,
    periodic: &[EF],
) -> Result<bool, AllocError>
    requires ready { IsReady F.TWO_ADICITY EF.DIMENSION zk statement.now proof.now log_chunks }
    requires off { zerofier EF.ops (2 ^ proof.now.log_height) challenges.zeta ≢ EF.ops.zero }
    requires periodic { length periodic.now ≡ length statement.now.periodic.now }
    ensures { IfOk result (λ holds. IsTrue holds ↔ Agrees ⟦<EF as StarkField<F>>⟧.fields zk
        statement.now proof.now log_chunks challenges.alpha challenges.zeta periodic.now) }
{
    let opened = &proof.opened_values;
    let log_num_chunks = with_hiding(log_chunks, zk);
    let domains = quotient_chunk_domains::<F>(alloc, proof.log_height, log_num_chunks)?;
    let window = Window {
        local: opened.trace_local.as_slice(),
        next: opened.trace_next.as_slice(),
        preprocessed: opened.preprocessed_local.as_slice(),
        preprocessed_next: opened.preprocessed_next.as_slice(),
        public_values: statement.public_values,
        periodic,
    };
    identity_holds::<F, EF>(
        alloc,
        statement.air,
        proof.log_height,
        &window,
        domains.as_slice(),
        opened.quotient_chunks.as_slice(),
        challenges,
    )
}
