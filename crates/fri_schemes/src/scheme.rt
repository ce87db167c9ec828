//! The trait of schemes that are made of parameters.

ghost use Rattle.std.specs.Prelude.{◌≡◌, ◌↔◌, ℕ, List, Option, IsTrue, IfOk};
ghost use Rattle.p3_challenger_sha256.specs.declared.sha256_challenger.Sha256Challenger.{
  Sha256Challenger,
};
ghost use Rattle.p3_fri_relation.specs.declared.error.FriError.TheVariants.{OutOfMemory};
ghost use Rattle.p3_fri_relation.specs.Setting.{Parameters as TestParameters};
ghost use Rattle.p3_fri_relation.specs.Views.{parameters_of};
ghost use Rattle.p3_fri_two_adic.specs.Ranges.{InProverRange, InVerifierRange};
ghost use Rattle.fri_schemes.specs.Alike.{AcceptAlike, AcceptsOnlyIf};
ghost use Rattle.fri_schemes.specs.Rows.{CommitsRows, KeepsColumns};

use fri_records::{Rounds, VerifierError};
use p3_challenger_sha256::Sha256Challenger;
use p3_domain::PolynomialSpace;
use p3_field::{BabyBear, ExtensionField, PrimeField64, TwoAdicMultiplicativeCoset};
use p3_fri_folding::FriParameters;
use p3_mmcs::Sha256Mmcs;
use p3_uni_stark_pcs::TwoAdicStarkPcs;
use std::alloc::{AllocError, Global};

/// The domains of columns.
pub type Coset<F = BabyBear> = TwoAdicMultiplicativeCoset<F>;

/// The tree of matrices.
pub type Inputs<F = BabyBear> = Sha256Mmcs<F>;

/// A scheme over SHA-256 that is made of parameters: over the field `F`, the extension `EF` that
/// its challenges are drawn from, and the field's cosets `D`. Its laws hold of whatever it was made
/// of, and in every state that commitments leave it in.
pub trait MadeScheme<F, EF: ExtensionField<D::Val>, D: PolynomialSpace>: TwoAdicStarkPcs<
    EF,
    Sha256Challenger<F>,
    D,
    Commitment = [u8; 32],
    Error = VerifierError,
>
    + Drop
where
    D::Val: PrimeField64,
{
    // it was made of these parameters of the low-degree test, and if it hides, of so many random
    // columns and a generator of this seed
    ghost IsMade: { TestParameters → ℕ → List ℕ → Self → Type 0 };

    // the state from which a statement is absorbed, of so many random columns and this index of
    // preprocessing
    ghost begun: { ℕ → Option ℕ → Sha256Challenger F };

    // a prover refuses for want of memory
    ghost IsMemory: { Self.ProverError → Type 0 };

    /// The scheme of these parameters, with so many random columns and with masks drawn from the
    /// seed, if it hides.
    fn made(fri: FriParameters<Rounds<EF>>, num_random_codewords: usize, seed: [u8; 32]) -> Self
        ensures { IsMade (parameters_of fri) num_random_codewords seed result };

    /// A challenger in the state from which a statement is absorbed: a fresh one, that has absorbed
    /// by what the scheme hides, if it does.
    fn begin(
        alloc: Global,
        num_random_codewords: usize,
        preprocessing: Option<usize>,
    ) -> Result<Sha256Challenger<F>, AllocError>
        ensures { IfOk result (λ challenger.
            challenger ≡ begun num_random_codewords preprocessing) };

    /// Whether a prover refuses for want of memory.
    fn is_out_of_memory(error: &Self::ProverError) -> bool
        ensures { IsTrue result ↔ IsMemory error.now };

    // it verifies where these parameters are a verifier's
    ghost verifier_law: { (p : TestParameters) (n : ℕ) (seed : List ℕ) (s : Self)
        → IsMade p n seed s → InVerifierRange p D.Val.TWO_ADICITY 63
        → (Self.rules s).InVerifierRange };

    // it opens where they are a prover's
    ghost prover_law: { (p : TestParameters) (n : ℕ) (seed : List ℕ) (s : Self)
        → IsMade p n seed s → InProverRange p D.Val.TWO_ADICITY 63
        → (Self.rules s).InProverRange };

    // it has their blowup
    ghost blowup_law: { (p : TestParameters) (n : ℕ) (seed : List ℕ) (s : Self)
        → IsMade p n seed s → Self.log_blowup s ≡ p.log_blowup };

    // it commits to rows that have room
    ghost commit_law: { (p : TestParameters) (n : ℕ) (seed : List ℕ) (s : Self)
        → IsMade p n seed s
        → CommitsRows (Self.rules s) D.Val.TWO_ADICITY D.log_size Self.ZK
        p.log_blowup };

    // what it commits to has the columns of the rows
    ghost columns_law: { (s : Self) → KeepsColumns (Self.rules s) };

    // what is accepted over a prover's parameters is in the verifier's range
    ghost accepted_law: { (p : TestParameters) (n : ℕ) (seed : List ℕ) (s : Self)
        → IsMade p n seed s → InProverRange p D.Val.TWO_ADICITY 63
        → AcceptsOnlyIf (Self.rules s) (InVerifierRange p D.Val.TWO_ADICITY 63) };

    // a verifier's want of memory is named as such
    ghost memory_law: { (s : Self) → (Self.rules s).out_of_memory ≡ OutOfMemory };

    // what is known is kept from commitment to commitment
    ghost keeps_since_law: { (old new later : Self)
        → Self.Keeps old new → Self.Keeps new later → Self.Keeps old later };

    // and the same is accepted
    ghost alike_law: { (old new : Self)
        → Self.Keeps old new → AcceptAlike (Self.rules old) (Self.rules new) };
}
