//! Words of a quotient's chunks, words that are committed to as they are, and random polynomials.

ghost use Rattle.std.specs.Prelude.{◌≡◌, ◌≢◌, ◌≤◌, ◌+◌, ◌*◌, ◌/◌, ◌^◌, [], false, map, length};
ghost use Rattle.std.specs.Prelude.{All, IsOk, IfOk, IfErr, IsSome, IfSome};
ghost use Rattle.std.specs.List.{AllZip};
ghost use Rattle.p3_matrix.specs.Matrix.{rows};
ghost use Rattle.p3_matrix.specs.Words.{past};
ghost use Rattle.p3_stark_pcs.specs.Evaluations.{HasShape};
ghost use Rattle.p3_fri_folding.specs.declared.error.FriProverError.TheVariants.{OutOfMemory};
ghost use Rattle.p3_fri_openings.specs.Held.{HoldsWords};
ghost use Rattle.p3_fri_hiding_openings.specs.Chunks.{polynomials_on, recombined_on};
ghost use Rattle.p3_fri_hiding_openings.specs.Ldes.{HasLdeHeight};
ghost use Rattle.p3_fri_masks.specs.Draws.{AreRandom, random_words};
ghost use Rattle.p3_fri_masks.specs.declared.error.HidingFriProverError.TheVariants.{Fri};
ghost use Rattle.p3_fri_masks.specs.QuotientLdes.{AreMaskedChunks, past_masks};
ghost use Rattle.p3_fri_hiding_openings.specs.Budgets.{AllFit, MaskRefusal};
ghost use Rattle.p3_fri_hiding_openings.specs.Data.{AreWide, IsNew, IsOfScheme, IsUnopened};
ghost use Rattle.p3_fri_hiding_openings.specs.Data.{shown_polynomials};
ghost use Rattle.p3_fri_hiding_openings.specs.Shown.{shown_in};
ghost use Rattle.p3_fri_hiding.specs.Commitments.{ExtendRandom};
ghost use Rattle.p3_fri_hiding.specs.Quotients.{CanExtend};

use crate::hiding_pcs::HidingFriPcs;
use p3_dft::TwoAdicSubgroupDft;
use p3_field_core::{ExtensionField, SampleField, TwoAdicField, TwoAdicMultiplicativeCoset};
use p3_fri_hiding_openings::budgets::{check_domains, check_ldes, check_matrices};
use p3_fri_hiding_openings::{HidingFriPcsProverData, new_prover_data};
use p3_fri_masks::{HidingFriProverError, quotient_ldes, random_matrices};
use p3_fri_relation::setting::ChallengeField;
use p3_matrix::RowMajorMatrix;
use p3_mmcs::Mmcs;
use rand_core::CryptoRng;
use std::alloc::{AllocError, Global};

/// A random matrix beside each domain, as high as it is large, with a column for each random
/// codeword and each coefficient of the extension. Without domains there is none, however wide it
/// would be; where there is some and no row can be so wide, nothing is drawn.
fn random_columns<F: TwoAdicField + SampleField, EF: ExtensionField<F>, R: CryptoRng>(
    alloc: Global,
    domains: Vec<TwoAdicMultiplicativeCoset<F>>,
    num_random_codewords: usize,
    rng: &mut R,
) -> Result<Vec<(TwoAdicMultiplicativeCoset<F>, RowMajorMatrix<F>)>, AllocError>
    ensures random { IfOk result (λ matrices. AreRandom F.from_word (λ d. 2 ^ d.log_size)
        (num_random_codewords + EF.DIMENSION) domains.items (R.stream rng.old)
        matrices.items) }
    ensures past { IfOk result (λ _. R.stream rng.new
        ≡ past (random_words F.from_word (λ d. 2 ^ d.log_size)
        (num_random_codewords + EF.DIMENSION) domains.items) (R.stream rng.old)) }
    ensures none { domains.items ≡ [] → IsOk result }
    ensures too_wide { 2 ^ 64 ≤ num_random_codewords + EF.DIMENSION → rng.new ≡ rng.old }
{
    if domains.is_empty() {
        return Ok(Vec::new(alloc));
    }
    // no memory holds a row as wide as that
    let Some(width) = num_random_codewords.checked_add(EF::DIMENSION) else {
        return Err(AllocError);
    };
    random_matrices(alloc, domains, width, rng)
}

impl<
    F: TwoAdicField + SampleField,
    Dft: TwoAdicSubgroupDft<F>,
    InputMmcs: Mmcs<F>,
    FriMmcs,
    R: CryptoRng,
> HidingFriPcs<F, Dft, InputMmcs, FriMmcs, R> {
    /// The words that are committed to for these chunks of a quotient, each of the values of its
    /// columns on the domain beside it. Each chunk gets a random column for each random codeword,
    /// and a random multiple of the polynomial that vanishes on its domain; the last chunk's makes
    /// up for the others', so that the columns recombine to the quotient that they made before.
    ///
    /// There is more than one chunk, and `num_chunks` says how many; they have one height and one
    /// width, and disjoint domains of that size, whose twofold extension lies within the
    /// two-adicity. `p3_fri_masks::are_disjoint` tests domains.
    ///
    /// # Errors
    ///
    /// As of `commit`.
    pub fn get_quotient_ldes<EF: ExtensionField<F>>(
        &mut self,
        alloc: Global,
        evaluations: Vec<(TwoAdicMultiplicativeCoset<F>, RowMajorMatrix<F>)>,
        _num_chunks: usize,
    ) -> Result<Vec<RowMajorMatrix<F>>, HidingFriProverError>
        requires { CanExtend F.ops (λ d. d.shift) (λ d. d.log_size) F.TWO_ADICITY
            self.old.fri.log_blowup evaluations.items _num_chunks }
        ensures kept { self.new ≡ record self.old { rng = self.new.rng } }
        ensures words { IfOk result (λ ldes. AreMaskedChunks F.ops (λ d. d.shift)
            (λ d. d.log_size) F.from_word self.old.num_random_codewords evaluations.items
            (R.stream self.old.rng) F.root F.GENERATOR self.old.fri.log_blowup ldes.items) }
        ensures past { IfOk result (λ _. R.stream self.new.rng
            ≡ past_masks (λ d. d.log_size) self.old.num_random_codewords evaluations.items
            (R.stream self.old.rng)) }
        ensures budget { IsOk result → AllFit self.old.num_random_codewords
            self.old.fri.num_queries EF.DIMENSION
            (map (λ e. length (rows e.1)) evaluations.items) }
        ensures sizes { IfOk result (λ ldes. AllZip (λ lde e.
            (shown_in ⟦<EF as ChallengeField<F>>⟧.fields self.new.fri.log_blowup
            self.new.num_random_codewords lde).size ≡ 2 * 2 ^ e.0.log_size)
            ldes.items evaluations.items) }
        ensures recombined { let fields = ⟦<EF as ChallengeField<F>>⟧.fields in
            IfOk result (λ ldes. (z : EF)
            → recombined_on fields (map (λ d. d.log_size) (map (λ e. e.0) evaluations.items))
            (map (λ d. d.shift) (map (λ e. e.0) evaluations.items))
            (map (λ lde. (shown_in fields self.new.fri.log_blowup self.new.num_random_codewords
            lde).values_at z) ldes.items) z
            ≡ recombined_on fields (map (λ d. d.log_size) (map (λ e. e.0) evaluations.items))
            (map (λ d. d.shift) (map (λ e. e.0) evaluations.items))
            (map (λ e. (polynomials_on fields e.0.shift e.0.log_size e.1).values_at z)
            evaluations.items) z) }
        ensures committable { IfOk result (λ ldes.
            All (HasLdeHeight F.TWO_ADICITY self.new.fri.log_blowup) ldes.items) }
        ensures openable { IfOk result (λ ldes.
            AreWide self.new.num_random_codewords ldes.items) }
        ensures low_degree { IfOk result (λ ldes.
            All (HoldsWords ⟦<EF as ChallengeField<F>>⟧.fields self.new.fri.log_blowup)
            ldes.items) }
        ensures refused { IfErr result (MaskRefusal self.old.num_random_codewords
            self.old.fri.num_queries EF.DIMENSION
            (map (λ e. length (rows e.1)) evaluations.items)) }
        ensures unmoved { IfErr result (λ e. e ≢ Fri OutOfMemory → self.new ≡ self.old) }
    {
        let codewords = self.num_random_codewords;
        let log_blowup = self.fri.log_blowup;
        check_matrices(codewords, self.fri.num_queries, EF::DIMENSION, &evaluations)?;
        Ok(quotient_ldes(
            &self.dft,
            alloc,
            log_blowup,
            evaluations,
            codewords,
            &mut self.rng,
        )?)
    }

    /// Commits to words on the evaluation coset, in bit-reversed order, at a height from the blowup
    /// to the size of the field's greatest subgroup. That they hold fresh masks, as those of
    /// `get_quotient_ldes` do, is the caller's duty.
    ///
    /// # Errors
    ///
    /// `InsufficientRandomCodewords`, `BudgetOverflow` or `HidingBudgetExceeded` where the masks of
    /// a matrix, half as high as what was extended to it, can't hide one opening; else
    /// `Fri(OutOfMemory)` alone.
    pub fn commit_ldes<EF: ExtensionField<F>>(
        &self,
        alloc: Global,
        ldes: Vec<RowMajorMatrix<F>>,
    ) -> Result<
        (
            InputMmcs::Commitment,
            HidingFriPcsProverData<InputMmcs::ProverData>,
        ),
        HidingFriProverError,
    >
        requires { All (HasLdeHeight F.TWO_ADICITY self.now.fri.log_blowup) ldes.items }
        ensures matrices { IfOk result (λ pair. InputMmcs.committed pair.1.inner ≡ ldes.items) }
        ensures data { IfOk result (λ pair. IsNew self.now.num_random_codewords
            self.now.fri.log_blowup false pair.1) }
        ensures budget { IsOk result → AllFit self.now.num_random_codewords
            self.now.fri.num_queries EF.DIMENSION
            (map (λ lde. length (rows lde) / 2 ^ self.now.fri.log_blowup / 2) ldes.items) }
        ensures commitment { IfOk result (λ pair.
            InputMmcs.commitment_of pair.1.inner ≡ pair.0) }
        ensures polynomials { let fields = ⟦<EF as ChallengeField<F>>⟧.fields in
            IfOk result (λ pair. shown_polynomials fields InputMmcs.committed
            self.now.fri.log_blowup self.now.num_random_codewords pair.1
            ≡ map (shown_in fields self.now.fri.log_blowup self.now.num_random_codewords)
            ldes.items) }
        ensures openable { AreWide self.now.num_random_codewords ldes.items
            → IfOk result (λ pair. IsUnopened ⟦<EF as ChallengeField<F>>⟧.fields
            InputMmcs.committed self.now.fri.log_blowup self.now.num_random_codewords pair.1) }
        ensures readable { IfOk result (λ pair. IsOfScheme ⟦<EF as ChallengeField<F>>⟧.fields
            InputMmcs.committed self.now.fri.log_blowup self.now.num_random_codewords pair.1) }
        ensures honest { let holds = HoldsWords ⟦<EF as ChallengeField<F>>⟧.fields
            self.now.fri.log_blowup in
            All holds ldes.items
            → IfOk result (λ pair. All holds (InputMmcs.committed pair.1.inner)) }
        ensures refused { IfErr result (MaskRefusal self.now.num_random_codewords
            self.now.fri.num_queries EF.DIMENSION
            (map (λ lde. length (rows lde) / 2 ^ self.now.fri.log_blowup / 2) ldes.items)) }
    {
        let codewords = self.num_random_codewords;
        let log_blowup = self.fri.log_blowup;
        check_ldes(
            codewords,
            self.fri.num_queries,
            EF::DIMENSION,
            log_blowup,
            &ldes,
        )?;
        let (commitment, inner) = self.mmcs.commit(alloc, ldes)?;
        Ok((
            commitment,
            new_prover_data(inner, false, codewords, log_blowup),
        ))
    }

    /// A commitment to random polynomials: one random matrix for each domain, as high as it and
    /// with a column for each random codeword and each coefficient of the extension, whose columns
    /// are values on it.
    ///
    /// # Errors
    ///
    /// As of `commit_ldes`, where masks are half as high as a domain is large.
    pub fn get_opt_randomization_poly_commitment<EF: ExtensionField<F>>(
        &mut self,
        alloc: Global,
        domains: Vec<TwoAdicMultiplicativeCoset<F>>,
    ) -> Result<
        Option<
            (
                InputMmcs::Commitment,
                HidingFriPcsProverData<InputMmcs::ProverData>,
            ),
        >,
        HidingFriProverError,
    >
        requires { All (λ d. d.log_size + self.old.fri.log_blowup ≤ F.TWO_ADICITY) domains.items }
        ensures kept { self.new ≡ record self.old { rng = self.new.rng } }
        ensures some { IfOk result (λ found. IsSome found) }
        ensures random { IfOk result (λ found. IfSome found (λ pair. ExtendRandom
            ⟦<EF as ChallengeField<F>>⟧.fields (λ d. d.shift) (λ d. d.log_size)
            self.old.fri.log_blowup F.from_word (self.old.num_random_codewords + EF.DIMENSION)
            domains.items (R.stream self.old.rng) (InputMmcs.committed pair.1.inner))) }
        ensures past { IfOk result (λ _. R.stream self.new.rng
            ≡ past (random_words F.from_word (λ d. 2 ^ d.log_size)
            (self.old.num_random_codewords + EF.DIMENSION) domains.items)
            (R.stream self.old.rng)) }
        ensures data { IfOk result (λ found. IfSome found (λ pair. IsNew
            self.old.num_random_codewords self.old.fri.log_blowup false pair.1)) }
        ensures budget { IsOk result → AllFit self.old.num_random_codewords
            self.old.fri.num_queries EF.DIMENSION
            (map (λ d. 2 ^ d.log_size / 2) domains.items) }
        ensures commitment { IfOk result (λ found. IfSome found (λ pair.
            InputMmcs.commitment_of pair.1.inner ≡ pair.0)) }
        ensures openable { IfOk result (λ found. IfSome found (λ pair. IsUnopened
            ⟦<EF as ChallengeField<F>>⟧.fields InputMmcs.committed self.new.fri.log_blowup
            self.new.num_random_codewords pair.1)) }
        ensures honest { IfOk result (λ found. IfSome found (λ pair.
            All (HoldsWords ⟦<EF as ChallengeField<F>>⟧.fields self.new.fri.log_blowup)
            (InputMmcs.committed pair.1.inner))) }
        ensures shapes { let fields = ⟦<EF as ChallengeField<F>>⟧.fields in
            IfOk result (λ found. IfSome found (λ pair. AllZip
            (λ m d. HasShape (2 ^ d.log_size) EF.DIMENSION m)
            (shown_polynomials fields InputMmcs.committed self.new.fri.log_blowup
            self.new.num_random_codewords pair.1) domains.items)) }
        ensures refused { IfErr result (MaskRefusal self.old.num_random_codewords
            self.old.fri.num_queries EF.DIMENSION
            (map (λ d. 2 ^ d.log_size / 2) domains.items)) }
        ensures unmoved { IfErr result (λ e. e ≢ Fri OutOfMemory → self.new ≡ self.old) }
        ensures too_wide { 2 ^ 64 ≤ self.old.num_random_codewords + EF.DIMENSION
            → self.new ≡ self.old }
    {
        let codewords = self.num_random_codewords;
        check_domains(codewords, self.fri.num_queries, EF::DIMENSION, &domains)?;
        let random = random_columns::<F, EF, R>(alloc, domains, codewords, &mut self.rng)?;
        let pair = self.commit_extended::<EF>(alloc, random, false)?;
        Ok(Some(pair))
    }
}
