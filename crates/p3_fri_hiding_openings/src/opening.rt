//! The prover of openings that hide: what is inside of requests is opened, once all checks have
//! passed and private data is marked.

ghost use Rattle.std.specs.Prelude.{◌≡◌, ◌^◌, ℕ, List, IsOk, IfOk, IfErr, map};
ghost use Rattle.p3_pcs.specs.Claims.{opened_values};
ghost use Rattle.p3_pcs.specs.Requests.{AreOpenable, AreHonest, FitDomains, request, with_data};
ghost use Rattle.p3_pcs.specs.Requests.{honest_values, honest_claims};
ghost use Rattle.p3_stark_pcs.specs.Preprocessing.{AreOpenableAt};
ghost use Rattle.p3_fri_relation.specs.Views.{parameters_of, proof_of};
ghost use Rattle.p3_fri_openings.specs.SchemeClaims.{relation_claims};
ghost use Rattle.p3_fri_opening_prover.specs.Ranges.{IsInOpeningRange};
ghost use Rattle.p3_fri_opening_prover.specs.Setting.{StandsOnCosets, IsHonest, held};
ghost use Rattle.p3_fri_opening_prover.specs.Opened.{IsOpened};
ghost use Rattle.p3_fri_opening_prover.specs.Refusals.{PassesChecks, OpenRefusal, LeavesState};
ghost use Rattle.p3_fri_two_adic.specs.Ends.{last_state};
ghost use Rattle.p3_fri_two_adic.specs.Ranges.{InProverRange};
ghost use Rattle.p3_fri_folding.specs.declared.error.FriProverError.TheVariants.{OutOfMemory};
ghost use Rattle.p3_fri_masks.specs.declared.error.HidingFriProverError.TheVariants.{Fri};
ghost use Rattle.p3_fri_hiding_openings.specs.Halves.{shown_values, kept_values};
ghost use Rattle.p3_fri_hiding_openings.specs.RandomValues.{with_random_values};
ghost use Rattle.p3_fri_hiding_openings.specs.Hiding.{HidingAccepts};
ghost use Rattle.p3_fri_hiding_openings.specs.Data.{IsUnopened, IsPreprocessing, shown_polynomials};
ghost use Rattle.p3_fri_hiding_openings.specs.Requests.{inside, inner_request, after_opening};
ghost use Rattle.p3_fri_hiding_openings.specs.Opening.{PassesHidingChecks, HidingRefusal};
ghost use Rattle.p3_fri_hiding_openings.specs.Opening.{LeavesHidingState};

use crate::data::HidingFriPcsProverData;
use crate::gather::{hidden_data, hidden_rounds};
use crate::marks::mark_all;
use crate::request_checks::check_requests;
use crate::split_random_values;
use p3_challenger_core::{CanObserve, FieldChallenger, GrindingChallenger};
use p3_field_core::{ExtensionField, PackableExtension, PackableField, TwoAdicField};
use p3_fri_folding::{FriFoldingStrategy, FriParameters, FriProverError};
use p3_fri_masks::HidingFriProverError;
use p3_fri_opening_prover::open_rounds;
use p3_fri_opening_prover::setting::OpensFri;
use p3_fri_relation::proof::{BatchMultiOpening, FriProof};
use p3_fri_two_adic::rules::OpensTwoAdic;
use p3_fri_two_adic::{TwoAdicFriFolding, TwoAdicFriFoldingForMmcs};
use p3_mmcs::{Mmcs, OpenedValues};
use p3_pcs::OpeningRequest;
use std::alloc::{AllocError, Global};
use std::marker::PhantomData;

/// Opens what is inside of requests that passed the checks: all columns, with those that only hide
/// others.
fn open_hidden<
    F: TwoAdicField,
    EF: ExtensionField<F>,
    M: Mmcs<EF>,
    InputMmcs: Mmcs<F>,
    S: FriFoldingStrategy<F, EF>,
    C: FieldChallenger<F> + GrindingChallenger<Witness = F> + CanObserve<M::Commitment>,
>(
    alloc: Global,
    folding: &S,
    params: &FriParameters<M>,
    input_mmcs: &InputMmcs,
    requests: &[OpeningRequest<'_, HidingFriPcsProverData<InputMmcs::ProverData>, EF>],
    challenger: &mut C,
) -> Result<
    (
        OpenedValues<EF>,
        FriProof<EF, M, F, Vec<BatchMultiOpening<F, InputMmcs>>>,
    ),
    FriProverError,
>
    requires in_range { IsInOpeningRange (parameters_of params.now) F.TWO_ADICITY
        (S.extra_query_index_bits folding.now) (S.max_log_height folding.now) C.MAX_SAMPLE_BITS }
    requires openable { let r = ⟦<C as OpensFri<F, EF, S, M, InputMmcs>>⟧.parts folding.now
        params.now input_mmcs.now in
        AreOpenable (StandsOnCosets r) (held r) (map request (map inner_request requests.now)) }
    requires passes { let r = ⟦<C as OpensFri<F, EF, S, M, InputMmcs>>⟧.parts folding.now
        params.now input_mmcs.now in
        PassesChecks r.setting.fields r.parameters r.committed
        (map request (map inner_request requests.now)) }
    ensures opened { let r = ⟦<C as OpensFri<F, EF, S, M, InputMmcs>>⟧.parts folding.now
        params.now input_mmcs.now in
        IfOk result (λ opening. IsOpened r (map request (map inner_request requests.now))
        challenger.old challenger.new (opened_values opening.0.items) (proof_of opening.1)) }
    ensures refused { let r = ⟦<C as OpensFri<F, EF, S, M, InputMmcs>>⟧.parts folding.now
        params.now input_mmcs.now in
        IfErr result (OpenRefusal r challenger.old (map request (map inner_request requests.now))) }
    ensures not_checked { IfErr result (λ e. ¬ LeavesState e) }
{
    let rounds = match hidden_rounds(alloc, input_mmcs, requests) {
        Ok(rounds) => rounds,
        Err(AllocError) => return Err(FriProverError::OutOfMemory),
    };
    let opened = match hidden_data(alloc, requests) {
        Ok(opened) => opened,
        Err(AllocError) => return Err(FriProverError::OutOfMemory),
    };
    open_rounds(
        alloc, folding, params, input_mmcs, &rounds, &opened, challenger,
    )
}

/// The opening of all columns, with the random values of private data moved beside the proof. Want
/// of memory is `Fri(OutOfMemory)`.
fn split_opening<EF: Copy, P: Drop>(
    alloc: Global,
    opening: (OpenedValues<EF>, P),
    num_random_codewords: usize,
    preprocessing: Option<usize>,
) -> Result<(OpenedValues<EF>, (OpenedValues<EF>, P)), HidingFriProverError>
    ensures shown { IfOk result (λ halves. opened_values halves.0.items
        ≡ shown_values num_random_codewords preprocessing (opened_values opening.0.items)) }
    ensures kept { IfOk result (λ halves. (opened_values halves.1.0.items
        ≡ kept_values num_random_codewords preprocessing (opened_values opening.0.items))
        × (halves.1.1 ≡ opening.1)) }
    ensures refused { IfErr result (λ e. e ≡ Fri OutOfMemory) }
{
    let (values, proof) = opening;
    match split_random_values(alloc, values, num_random_codewords, preprocessing) {
        Ok((shown, kept)) => Ok((shown, (kept, proof))),
        Err(error) => Err(HidingFriProverError::from(error)),
    }
}

/// Opens requests to the scheme: answers the values of the committed polynomials at the points, of
/// private data without the columns that only hide others, and a proof, which has the values of
/// these at the same points beside. The index names the request of preprocessing, if there is one.
/// Once the checks have passed, private data counts as opened, whatever comes then.
///
/// # Errors
///
/// Matrix by matrix, request by request, the height is tested and then the hiding budget for the
/// matrix's points, and after them all points, before any data is marked or the challenger touched.
/// `Fri(NoPowWitness)` where no element passes a proof of work that is asked for. Want of memory is
/// `Fri(OutOfMemory)`.
pub fn open_hiding_requests<
    F: TwoAdicField + PackableField,
    EF: PackableExtension<F>,
    M: Mmcs<EF>,
    InputMmcs: Mmcs<F>,
    C: FieldChallenger<F> + GrindingChallenger<Witness = F> + CanObserve<M::Commitment>,
>(
    alloc: Global,
    params: &FriParameters<M>,
    input_mmcs: &InputMmcs,
    num_random_codewords: usize,
    requests: &mut [OpeningRequest<'_, HidingFriPcsProverData<InputMmcs::ProverData>, EF>],
    challenger: &mut C,
    preprocessing: Option<usize>,
) -> Result<
    (
        OpenedValues<EF>,
        (
            OpenedValues<EF>,
            FriProof<EF, M, F, Vec<BatchMultiOpening<F, InputMmcs>>>,
        ),
    ),
    HidingFriProverError,
>
    requires range { InProverRange (parameters_of params.now) F.TWO_ADICITY C.MAX_SAMPLE_BITS }
    requires shape { let r = ⟦<C as OpensTwoAdic<F, EF, InputMmcs, M>>⟧.parts input_mmcs.now
        params.now in
        let b = r.parameters.log_blowup in
        AreOpenableAt (IsUnopened r.setting.fields r.committed b num_random_codewords)
        (IsPreprocessing r.setting.fields r.committed b num_random_codewords)
        (shown_polynomials r.setting.fields r.committed b num_random_codewords) preprocessing
        (map request requests.old) }
    ensures values { let r = ⟦<C as OpensTwoAdic<F, EF, InputMmcs, M>>⟧.parts input_mmcs.now
        params.now in
        IfOk result (λ opening. opened_values opening.0.items ≡ map (honest_values
        (shown_polynomials r.setting.fields r.committed r.parameters.log_blowup
        num_random_codewords)) (map request requests.old)) }
    ensures kept { let r = ⟦<C as OpensTwoAdic<F, EF, InputMmcs, M>>⟧.parts input_mmcs.now
        params.now in
        IfOk result (λ opening. opened_values opening.1.0.items
        ≡ kept_values num_random_codewords preprocessing
        (map (honest_values (held r)) (map inside (map request requests.old)))) }
    ensures accepted { let r = ⟦<C as OpensTwoAdic<F, EF, InputMmcs, M>>⟧.parts input_mmcs.now
        params.now in
        let shown = shown_polynomials r.setting.fields r.committed r.parameters.log_blowup
        num_random_codewords in
        let asked = map request requests.old in
        AreHonest (λ d. IsHonest r d.inner) asked
        → IfOk result (λ opening. (log_sizes : List (List ℕ))
        → FitDomains shown (λ n. 2 ^ n) log_sizes asked
        → HidingAccepts r.setting r.parameters num_random_codewords preprocessing
        (relation_claims (λ n. n)
        (honest_claims shown (λ d. r.commitment_of d.inner) log_sizes asked))
        (opened_values opening.1.0.items) (proof_of opening.1.1) challenger.old) }
    ensures state { let r = ⟦<C as OpensTwoAdic<F, EF, InputMmcs, M>>⟧.parts input_mmcs.now
        params.now in
        let shown = shown_polynomials r.setting.fields r.committed r.parameters.log_blowup
        num_random_codewords in
        let asked = map request requests.old in
        AreHonest (λ d. IsHonest r d.inner) asked
        → IfOk result (λ opening. (log_sizes : List (List ℕ))
        → FitDomains shown (λ n. 2 ^ n) log_sizes asked
        → challenger.new ≡ last_state r.setting r.parameters
        (with_random_values (relation_claims (λ n. n)
        (honest_claims shown (λ d. r.commitment_of d.inner) log_sizes asked))
        (opened_values opening.1.0.items)) (proof_of opening.1.1) challenger.old) }
    ensures checked { let r = ⟦<C as OpensTwoAdic<F, EF, InputMmcs, M>>⟧.parts input_mmcs.now
        params.now in
        IsOk result → PassesHidingChecks r.setting.fields r.parameters num_random_codewords
        r.committed (map request requests.old) }
    ensures opened { let r = ⟦<C as OpensTwoAdic<F, EF, InputMmcs, M>>⟧.parts input_mmcs.now
        params.now in
        PassesHidingChecks r.setting.fields r.parameters num_random_codewords r.committed
        (map request requests.old)
        → requests.new ≡ map (with_data after_opening) requests.old }
    ensures unopened { let r = ⟦<C as OpensTwoAdic<F, EF, InputMmcs, M>>⟧.parts input_mmcs.now
        params.now in
        ¬ PassesHidingChecks r.setting.fields r.parameters num_random_codewords r.committed
        (map request requests.old)
        → requests.new ≡ requests.old }
    ensures refused { let r = ⟦<C as OpensTwoAdic<F, EF, InputMmcs, M>>⟧.parts input_mmcs.now
        params.now in
        IfErr result (HidingRefusal r num_random_codewords challenger.old
        (map request requests.old)) }
    ensures unmoved { IfErr result (λ e. LeavesHidingState e → challenger.new ≡ challenger.old) }
    ensures untouched { IfErr result (λ e. LeavesHidingState e → requests.new ≡ requests.old) }
{
    check_requests(num_random_codewords, params, input_mmcs, &*requests)?;
    mark_all(&mut *requests);
    let folding: TwoAdicFriFoldingForMmcs<F, InputMmcs> = TwoAdicFriFolding(PhantomData);
    let opening = open_hidden::<F, EF, M, InputMmcs, TwoAdicFriFoldingForMmcs<F, InputMmcs>, C>(
        alloc, &folding, params, input_mmcs, &*requests, challenger,
    )?;
    split_opening(alloc, opening, num_random_codewords, preprocessing)
}
