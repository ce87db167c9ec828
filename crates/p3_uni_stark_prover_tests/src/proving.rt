//! Instances are proved by a scheme, and proofs verified by the same.

ghost use Rattle.std.specs.Prelude.{◌≡◌, ◌≤◌, ◌+◌, ◌^◌, [], ◌∷◌, ℕ, length};
ghost use Rattle.p3_matrix.specs.Matrix.{rows, matrix_width};
ghost use Rattle.p3_air.specs.WellFormed.{IsWellFormed};
ghost use Rattle.p3_uni_stark_verifier.specs.Chunks.{hiding_bits};
ghost use Rattle.p3_uni_stark_prover.specs.Held.{HoldPreprocessed};
ghost use Rattle.p3_uni_stark_prover.specs.Provable.{FitsField};

use crate::instances::Instance;
use crate::schemes::{Domain, Tested};
use p3_challenger_sha256::Sha256Challenger;
use p3_dft::Radix2Dit;
use p3_field::{BabyBear, BabyBear4, Field, log2_strict_usize};
use p3_matrix::RowMajorMatrix;
use p3_pcs::Pcs;
use p3_uni_stark_pcs::TwoAdicStarkPcs;
use p3_uni_stark_prover::{ProvingError, prove};
use p3_uni_stark_statement::{have_width, matrix_of_rows};
use p3_uni_stark_verifier::chunks::with_hiding;
use p3_uni_stark_verifier::opened::subgroup;
use p3_uni_stark_verifier::{PreprocessedVerifierKey, Proof, Statement, VerificationError, verify};
use std::alloc::Global;
use std::process::Abort;

/// The key of preprocessed columns, if there are any.
pub(crate) type Key = Option<PreprocessedVerifierKey<[u8; 32]>>;

/// A proof by a scheme.
pub(crate) type ProofBy<P> = Proof<
    BabyBear4,
    [u8; 32],
    <P as Pcs<BabyBear4, Sha256Challenger>>::Proof,
>;

/// A proof, or why there is none.
type Proved<P> = Result<
    ProofBy<P>,
    ProvingError<<P as Pcs<BabyBear4, Sha256Challenger>>::ProverError>,
>;

/// What the verifier returns.
type Verified<P> = Result<(), VerificationError<<P as Pcs<BabyBear4, Sha256Challenger>>::Error>>;

/// A list of one.
pub(crate) fn one<T: Drop>(rt: &impl Abort, alloc: Global, value: T) -> Vec<T>
    ensures { result.items ≡ value ∷ [] }
{
    let mut all = Vec::new(alloc);
    all.push(value).expect(rt, "memory");
    all
}

/// Commits to the preprocessed columns of `2^log_height` rows.
fn commit_columns<
    Com: Copy,
    P: TwoAdicStarkPcs<BabyBear4, Sha256Challenger, Domain, Commitment = Com>,
>(
    rt: &impl Abort,
    scheme: &mut P,
    alloc: Global,
    columns: RowMajorMatrix<BabyBear>,
    log_height: usize,
) -> (Option<PreprocessedVerifierKey<Com>>, Option<P::ProverData>)
    requires height { length (rows columns) ≡ 2 ^ log_height }
    requires room { log_height + hiding_bits P.ZK + P.log_blowup scheme.old ≤ 27 }
    ensures kept { P.Keeps scheme.old scheme.new }
    ensures held { (k width : ℕ) → log_height ≡ k → matrix_width columns ≡ width
        → HoldPreprocessed (P.rules scheme.new) (P.stark_rules scheme.new)
        (λ d. (d.shift ≡ ⟦<BabyBear as Field>⟧.ONE) × (d.log_size ≡ k + hiding_bits P.ZK))
        k width result.0 result.1 }
{
    let domain = subgroup::<BabyBear>(with_hiding(log_height, P::ZK));
    let evaluations = one(rt, alloc, (domain, columns));
    match scheme.commit_preprocessing(alloc, evaluations) {
        Ok((commitment, data)) => {
            let key = PreprocessedVerifierKey {
                commitment,
                log_height,
            };
            (Some(key), Some(data))
        },
        Err(_) => panic!(rt; "the preprocessed columns are refused"),
    }
}

/// Commits to the preprocessed columns on their subgroup, if there are any.
pub(crate) fn commit_preprocessed<P: Tested>(
    rt: &impl Abort,
    scheme: &mut P,
    alloc: Global,
    instance: &Instance,
) -> (
    Key,
    Option<<P as Pcs<BabyBear4, Sha256Challenger>>::ProverData>,
)
    requires log_blowup { P.log_blowup scheme.old ≡ 1 }
    requires room { FitsField 27 1 P.ZK instance.now.air
        (length instance.now.given.trace.items) }
    ensures kept { P.Keeps scheme.old scheme.new }
    ensures held { (k : ℕ) → length instance.now.given.trace.items ≡ 2 ^ k
        → HoldPreprocessed (P.rules scheme.new) (P.stark_rules scheme.new)
        (λ d. (d.shift ≡ ⟦<BabyBear as Field>⟧.ONE) × (d.log_size ≡ k + hiding_bits P.ZK))
        k instance.now.air.layout.preprocessed_width result.0 result.1 }
{
    let width = instance.air.layout.preprocessed_width;
    if width == 0 {
        return (None, None);
    }
    let rows = instance.given.preprocessed.as_slice();
    assert!(rt;
        rows.len() == instance.given.trace.len(),
        "the preprocessed columns have another height"
    );
    assert!(rt;
        have_width(rows, width),
        "the preprocessed columns have another width"
    );
    let log_height = log2_strict_usize(rows.len());
    let columns = matrix_of_rows(alloc, rows, width).expect(rt, "memory");
    commit_columns::<[u8; 32], P>(rt, scheme, alloc, columns, log_height)
}

/// The statement that a trace satisfies the instance's system.
fn statement_of<'a, Com: Copy>(
    instance: &'a Instance,
    preprocessed: Option<PreprocessedVerifierKey<Com>>,
) -> Statement<'a, BabyBear, Com>
    ensures air { result.air.now ≡ instance.now.air }
    ensures preprocessed { result.preprocessed ≡ preprocessed }
    ensures periodic { result.periodic.now ≡ instance.now.given.periodic.items }
    ensures public_values { result.public_values.now ≡ instance.now.given.public_values.items }
{
    Statement {
        air: &instance.air,
        preprocessed,
        periodic: instance.given.periodic.as_slice(),
        public_values: instance.given.public_values.as_slice(),
    }
}

/// A proof of the instance's trace. An ill-formed statement is no test.
pub(crate) fn prove_instance<P: Tested>(
    rt: &impl Abort,
    scheme: &mut P,
    alloc: Global,
    instance: &Instance,
    key: Key,
    preprocessed: Option<<P as Pcs<BabyBear4, Sha256Challenger>>::ProverData>,
    challenger: &mut Sha256Challenger,
) -> Proved<P>
    requires log_blowup { P.log_blowup scheme.old ≡ 1 }
    requires range { (P.rules scheme.old).InProverRange }
    requires well_formed { IsWellFormed instance.now.air }
    requires room { FitsField 27 1 P.ZK instance.now.air
        (length instance.now.given.trace.items) }
    requires preprocessed { (k : ℕ) → length instance.now.given.trace.items ≡ 2 ^ k
        → HoldPreprocessed (P.rules scheme.old) (P.stark_rules scheme.old)
        (λ d. (d.shift ≡ ⟦<BabyBear as Field>⟧.ONE) × (d.log_size ≡ k + hiding_bits P.ZK))
        k instance.now.air.layout.preprocessed_width key preprocessed }
{
    let layout = instance.air.layout;
    let rows = instance.given.trace.as_slice();
    assert!(rt;
        instance.given.public_values.len() == layout.num_public_values,
        "public values"
    );
    assert!(rt;
        instance.given.periodic.len() == layout.num_periodic_columns,
        "periodic columns"
    );
    assert!(rt; key.is_some() != (layout.preprocessed_width == 0), "a key");
    assert!(rt; layout.width != 0, "no columns");
    assert!(rt; have_width(rows, layout.width), "rows");
    let trace = matrix_of_rows(alloc, rows, layout.width).expect(rt, "memory");
    prove::<BabyBear, BabyBear4, [u8; 32], Sha256Challenger, P>(
        scheme,
        alloc,
        &statement_of(instance, key),
        trace,
        preprocessed,
        challenger,
    )
}

/// What the verifier says of a proof.
pub(crate) fn verify_instance<P: Tested>(
    alloc: Global,
    instance: &Instance,
    key: Key,
    proof: &ProofBy<P>,
    challenger: &mut Sha256Challenger,
) -> Verified<P> {
    verify::<BabyBear, BabyBear4, [u8; 32], Sha256Challenger, Radix2Dit<BabyBear>, P>(
        &P::made(),
        alloc,
        &statement_of(instance, key),
        proof,
        challenger,
    )
}
