//! Times the prover of a STARK, and its verifier, for one constraint system of any width whose
//! transition constraints have degree 3.

ghost use Rattle.std.specs.Prelude.{IfOk, false, length};
ghost use Rattle.p3_matrix.specs.Matrix.{rows};
ghost use Rattle.p3_air.specs.WellFormed.{IsWellFormed};
ghost use Rattle.p3_uni_stark_prover.specs.Provable.{FitsField};

use crate::schemes::{Domain, Watches};
use crate::watch::{Fault, Result, now};
use p3_air::{Air, AirBuilder, AirLayout, Expression};
use p3_challenger::Sha256Challenger;
use p3_dft::Radix2Dit;
use p3_field::{BabyBear, BabyBear4};
use p3_matrix::RowMajorMatrix;
use p3_uni_stark_pcs::TwoAdicStarkPcs;
use p3_uni_stark_prover::{has_room, prove};
use p3_uni_stark_verifier::{Statement, verify};
use std::alloc::Global;

/// By which a verifier reads periodic columns.
type Transform = Radix2Dit<BabyBear>;

/// The system of so many columns, if the field has room for a trace of that height: the next entry
/// of a column is the square of this one, times that beside it, plus the one beside that.
pub fn mixing(
    alloc: Global,
    width: usize,
    height: usize,
    log_blowup: usize,
) -> Result<Air<BabyBear>>
    ensures well_formed { IfOk result IsWellFormed }
    ensures room { IfOk result (λ air. FitsField 27 log_blowup false air height) }
{
    let mut builder = AirBuilder::new(
        alloc,
        AirLayout {
            width,
            preprocessed_width: 0,
            num_public_values: 0,
            num_periodic_columns: 0,
        },
    );
    // The entries of this row, so that their nodes have the numbers of their columns.
    for column in 0..width {
        builder.local(column)?;
    }
    for column in 0..width {
        let here = Expression { node: column };
        let beside = (column + 1) % width;
        let square = builder.mul(here, here)?;
        let product = builder.mul(square, Expression { node: beside })?;
        let sum = builder.add(
            product,
            Expression {
                node: (beside + 1) % width,
            },
        )?;
        let next = builder.next(column)?;
        builder.when_transition().assert_eq(next, sum)?;
    }
    let Ok(air) = builder.build() else {
        return Err(Fault::Sizes);
    };
    match has_room::<BabyBear, ()>(alloc, &air, height, log_blowup, false) {
        Ok(true) => Ok(air),
        _ => Err(Fault::Sizes),
    }
}

/// Times both, of a system of the trace's columns alone.
pub fn time_both<P: TwoAdicStarkPcs<BabyBear4, Sha256Challenger, Domain, Commitment = [u8; 32]>>(
    rt: &HostRuntime,
    watches: &mut Watches,
    scheme: &mut P,
    air: &Air<BabyBear>,
    trace: RowMajorMatrix<BabyBear>,
) -> Result<()>
    requires prover { (P.rules scheme.old).InProverRange }
    requires verifier { (P.rules scheme.old).InVerifierRange }
    requires well_formed { IsWellFormed air.now }
    requires room { FitsField 27 (P.log_blowup scheme.old) P.ZK air.now (length (rows trace)) }
{
    let layout = air.layout;
    if layout.width != trace.width()
        || layout.preprocessed_width != 0
        || layout.num_public_values != 0
        || layout.num_periodic_columns != 0
    {
        return Err(Fault::Sizes);
    }
    let statement = Statement {
        air,
        preprocessed: None,
        periodic: &[],
        public_values: &[],
    };
    let (mut challenger, mut verifier) = (Sha256Challenger::new(), Sha256Challenger::new());
    let start = now(rt);
    let Ok(proof) = prove::<BabyBear, BabyBear4, [u8; 32], Sha256Challenger, P>(
        scheme,
        rt.alloc(),
        &statement,
        trace,
        None,
        &mut challenger,
    ) else {
        return Err(Fault::Refused);
    };
    watches[0].see(rt, start);
    let start = now(rt);
    let verified = verify::<BabyBear, BabyBear4, [u8; 32], Sha256Challenger, Transform, P>(
        &*scheme,
        rt.alloc(),
        &statement,
        &proof,
        &mut verifier,
    );
    watches[1].see(rt, start);
    verified.or(Err(Fault::Refused))
}
