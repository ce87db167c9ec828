//! The scheme at BabyBear, its quartic extension and SHA-256, as tests run by it.

ghost use Rattle.std.proofs.Common.{refl};
ghost use Rattle.std.specs.Prelude.{◌≡◌, All, IsTrue};
ghost use Rattle.p3_fri_relation.specs.Views.{parameters_of};
ghost use Rattle.p3_fri_two_adic.specs.Ranges.{InProverRange, InVerifierRange};
ghost use Rattle.p3_stark_pcs_tests.specs.RoomLaws.{has_room};

use crate::columns::are_columns;
use crate::tested::Tested;
use p3_dft::Radix2Dit;
use p3_field::{BabyBear, BabyBear4, TwoAdicMultiplicativeCoset};
use p3_fri_folding::FriParameters;
use p3_fri_two_adic::TwoAdicFriPcs;
use p3_mmcs::{Mmcs, Sha256Mmcs};

type Inputs = Sha256Mmcs<BabyBear>;

type Rounds = Sha256Mmcs<BabyBear4>;

pub(crate) type Scheme = TwoAdicFriPcs<BabyBear, Radix2Dit<BabyBear>, Inputs, Rounds>;

pub(crate) type Domain = TwoAdicMultiplicativeCoset<BabyBear>;

/// Its parameters.
fn parameters() -> FriParameters<Rounds>
    ensures log_blowup { result.log_blowup ≡ 1 }
    ensures prover_range { InProverRange (parameters_of result) 27 63 }
    ensures verifier_range { InVerifierRange (parameters_of result) 27 63 }
{
    FriParameters {
        log_blowup: 1,
        log_final_poly_len: 0,
        max_log_arity: 1,
        num_queries: 2,
        batch_proof_of_work_bits: 0,
        commit_proof_of_work_bits: 0,
        query_proof_of_work_bits: 0,
        mmcs: Sha256Mmcs::new(),
    }
}

impl Tested for Scheme {
    ghost IsTested = { λ s. s.fri.log_blowup ≡ 1 };

    fn made() -> Self {
        TwoAdicFriPcs::new(Radix2Dit::default(), Sha256Mmcs::new(), parameters())
    }

    fn can_read(&self, held: &<Inputs as Mmcs<BabyBear>>::ProverData, index: usize) -> bool {
        index < Inputs::new().get_matrices(held).len()
    }

    fn holds(held: &<Inputs as Mmcs<BabyBear>>::ProverData, each: &[&[u64]]) -> bool {
        are_columns(Inputs::new().get_matrices(held), each)
    }

    ghost hides_nothing_law = { refl };

    ghost room_law = { λ s is. has_room s.fri.log_blowup is _ _ (λ d. d.log_size) (λ d. refl)
        (λ es h. h) (λ es n h. h) (λ ds. tt) };
}
