//! The hiding scheme over two-adic fields, in the names of the Rust crate p3-fri: what it commits
//! to. A matrix of `n` rows is handed in beside a domain of `2n` points, on which the masked matrix
//! has its values.

ghost use Rattle.std.specs.Prelude.{◌≡◌, ◌≢◌, map, length, All};
ghost use Rattle.std.specs.Prelude.{IsOk, IfOk, IfErr, false, true};
ghost use Rattle.std.specs.List.{AllZip, Any};
ghost use Rattle.rand_core.specs.Stream.{fill_bytes};
ghost use Rattle.p3_matrix.specs.Matrix.{rows};
ghost use Rattle.p3_matrix.specs.Words.{past};
ghost use Rattle.p3_fri_openings.specs.Held.{HoldsWords};
ghost use Rattle.p3_fri_folding.specs.declared.error.FriProverError.TheVariants.{OutOfMemory};
ghost use Rattle.p3_fri_masks.specs.declared.error.HidingFriProverError.TheVariants.{Fri};
ghost use Rattle.p3_fri_masks.specs.Masked.{mask_words_of_all, IsTooWide};
ghost use Rattle.p3_fri_hiding_openings.specs.Budgets.{AllFit, MaskRefusal};
ghost use Rattle.p3_fri_hiding.specs.Commitments.{ExtendMasked, ExtendPadded};
ghost use Rattle.p3_fri_hiding_openings.specs.Data.{IsNew, IsUnopened, IsPreprocessing};
ghost use Rattle.p3_fri_hiding_openings.specs.Data.{shown_polynomials};
ghost use Rattle.p3_fri_hiding.specs.Trace.{FitsMasked, HasTrace, HasZerosBetween};

use p3_dft::TwoAdicSubgroupDft;
use p3_field_core::{ExtensionField, SampleField, TwoAdicField, TwoAdicMultiplicativeCoset};
use p3_fri_folding::FriParameters;
use p3_fri_hiding_openings::HidingFriPcsProverData;
use p3_fri_hiding_openings::budgets::check_matrices;
use p3_fri_masks::{HidingFriProverError, mask_each, pad_each};
use p3_fri_relation::setting::ChallengeField;
use p3_matrix::RowMajorMatrix;
use p3_mmcs::Mmcs;
use rand_core::{CryptoRng, SeedableRng};
use std::alloc::{AllocError, Global};
use std::marker::PhantomData;

/// The scheme: a transform, a commitment to the matrices, parameters with the commitment to the
/// folded words, the number of random codewords, and the generator of all that is random. It hides
/// where both commitments do and the generator can't be predicted, which is the caller's duty.
#[derive(Debug, Drop)]
pub struct HidingFriPcs<Val, Dft, InputMmcs, FriMmcs, R> {
    pub(crate) dft: Dft,
    pub(crate) mmcs: InputMmcs,
    pub(crate) fri: FriParameters<FriMmcs>,
    pub(crate) num_random_codewords: usize,
    pub(crate) rng: R,
    of: PhantomData<Val>,
}

impl<Val, Dft, InputMmcs, FriMmcs, R: CryptoRng> HidingFriPcs<Val, Dft, InputMmcs, FriMmcs, R> {
    /// The scheme of these parts.
    ///
    /// # Examples
    ///
    /// As many random codewords as the extension's degree, and a generator from a seed that is
    /// secret and used once:
    ///
    /// ```
    /// type Scheme = HidingFriPcs<
    ///     BabyBear,
    ///     Radix2Dit<BabyBear>,
    ///     Sha256Mmcs<BabyBear>,
    ///     Sha256Mmcs<BabyBear4>,
    ///     ChaCha20Rng,
    /// >;
    ///
    /// let (dft, mmcs) = (Radix2Dit::default(), Sha256Mmcs::new());
    /// let generator = ChaCha20Rng::from_seed(seed);
    /// let mut scheme: Scheme = HidingFriPcs::new(dft, mmcs, params, 4, generator);
    /// ```
    pub fn new(
        dft: Dft,
        mmcs: InputMmcs,
        params: FriParameters<FriMmcs>,
        num_random_codewords: usize,
        rng: R,
    ) -> Self
        ensures dft { result.dft ≡ dft }
        ensures mmcs { result.mmcs ≡ mmcs }
        ensures parameters { result.fri ≡ params }
        ensures codewords { result.num_random_codewords ≡ num_random_codewords }
        ensures generator { result.rng ≡ rng }
    {
        HidingFriPcs {
            dft,
            mmcs,
            fri: params,
            num_random_codewords,
            rng,
            of: PhantomData,
        }
    }

    /// The parameters of the low-degree test.
    pub fn parameters(&self) -> &FriParameters<FriMmcs>
        ensures { result.now ≡ self.now.fri }
    {
        &self.fri
    }
}

impl<Val, Dft: Clone, InputMmcs: Clone, FriMmcs: Clone, R: CryptoRng + SeedableRng> HidingFriPcs<
    Val,
    Dft,
    InputMmcs,
    FriMmcs,
    R,
> {
    /// The same scheme with a generator of its own, seeded from this one's, so that no two of them
    /// draw the same masks. Copies of the other parts are equal to them.
    ///
    /// # Errors
    ///
    /// `AllocError` where a part isn't copied for want of memory, and then nothing was drawn.
    ///
    /// # Examples
    ///
    /// ```
    /// let mut other = scheme.fork()?;
    /// ```
    pub fn fork(&mut self) -> Result<Self, AllocError>
        requires copies_of_dft { (x y : Dft) → Dft.is_clone x y → y ≡ x }
        requires copies_of_mmcs { (x y : InputMmcs) → InputMmcs.is_clone x y → y ≡ x }
        requires copies_of_fri_mmcs { (x y : FriMmcs) → FriMmcs.is_clone x y → y ≡ x }
        ensures forked { IfOk result (λ forked. forked ≡ record self.old {
          rng = R.of_seed (fill_bytes R.Seed.len (R.stream self.old.rng)).0;
        }) }
        ensures kept { self.new ≡ record self.old { rng = self.new.rng } }
        ensures past { IfOk result (λ _. R.stream self.new.rng
            ≡ (fill_bytes R.Seed.len (R.stream self.old.rng)).1) }
        ensures refused { IfErr result (λ _. self.new ≡ self.old) }
    {
        let dft = self.dft.clone()?;
        let mmcs = self.mmcs.clone()?;
        let fri = self.fri.clone()?;
        Ok(HidingFriPcs {
            dft,
            mmcs,
            fri,
            num_random_codewords: self.num_random_codewords,
            rng: self.rng.fork(),
            of: PhantomData,
        })
    }
}

impl<
    F: TwoAdicField + SampleField,
    Dft: TwoAdicSubgroupDft<F>,
    InputMmcs: Mmcs<F>,
    FriMmcs,
    R: CryptoRng,
> HidingFriPcs<F, Dft, InputMmcs, FriMmcs, R> {
    /// Commits to a batch of matrices, each masked: between its rows stand random ones, and on the
    /// right of each row a random value for each random codeword.
    ///
    /// # Errors
    ///
    /// `InsufficientRandomCodewords`, `BudgetOverflow` or `HidingBudgetExceeded` where the masks of
    /// a matrix, as high as it is, can't hide one opening, and then nothing was drawn; else
    /// `Fri(OutOfMemory)` alone. Nothing is drawn either where a matrix is too wide to be masked.
    ///
    /// # Examples
    ///
    /// A table of 128 rows and two columns, whose domain has 256 points:
    ///
    /// ```
    /// let domain = TwoAdicMultiplicativeCoset {
    ///     shift: BabyBear::ONE,
    ///     log_size: 8,
    /// };
    /// let evaluations = vec![in alloc; (domain, RowMajorMatrix::new(values, 2))]?;
    /// let (commitment, mut data) = scheme.commit::<BabyBear4>(alloc, evaluations)?;
    /// challenger.observe(commitment);
    /// ```
    pub fn commit<EF: ExtensionField<F>>(
        &mut self,
        alloc: Global,
        evaluations: Vec<(TwoAdicMultiplicativeCoset<F>, RowMajorMatrix<F>)>,
    ) -> Result<
        (
            InputMmcs::Commitment,
            HidingFriPcsProverData<InputMmcs::ProverData>,
        ),
        HidingFriProverError,
    >
        requires { All (λ e. FitsMasked F.TWO_ADICITY self.old.fri.log_blowup e.0.log_size e.1)
            evaluations.items }
        ensures kept { self.new ≡ record self.old { rng = self.new.rng } }
        ensures masked { IfOk result (λ pair. ExtendMasked ⟦<EF as ChallengeField<F>>⟧.fields
            (λ d. d.shift) (λ d. d.log_size) self.old.fri.log_blowup F.from_word
            self.old.num_random_codewords evaluations.items (R.stream self.old.rng)
            (InputMmcs.committed pair.1.inner)) }
        ensures past { IfOk result (λ _. R.stream self.new.rng
            ≡ past (mask_words_of_all F.from_word self.old.num_random_codewords evaluations.items)
            (R.stream self.old.rng)) }
        ensures data { IfOk result (λ pair. IsNew self.old.num_random_codewords
            self.old.fri.log_blowup false pair.1) }
        ensures budget { IsOk result → AllFit self.old.num_random_codewords
            self.old.fri.num_queries EF.DIMENSION
            (map (λ e. length (rows e.1)) evaluations.items) }
        ensures commitment { IfOk result (λ pair.
            InputMmcs.commitment_of pair.1.inner ≡ pair.0) }
        ensures openable { IfOk result (λ pair. IsUnopened ⟦<EF as ChallengeField<F>>⟧.fields
            InputMmcs.committed self.new.fri.log_blowup self.new.num_random_codewords pair.1) }
        ensures honest { IfOk result (λ pair.
            All (HoldsWords ⟦<EF as ChallengeField<F>>⟧.fields self.new.fri.log_blowup)
            (InputMmcs.committed pair.1.inner)) }
        ensures extends { IfOk result (λ pair. AllZip
            (λ m e. HasTrace ⟦<EF as ChallengeField<F>>⟧.fields e.0.shift e.0.log_size e.1 m)
            (shown_polynomials ⟦<EF as ChallengeField<F>>⟧.fields InputMmcs.committed
            self.new.fri.log_blowup self.new.num_random_codewords pair.1) evaluations.items) }
        ensures refused { IfErr result (MaskRefusal self.old.num_random_codewords
            self.old.fri.num_queries EF.DIMENSION
            (map (λ e. length (rows e.1)) evaluations.items)) }
        ensures unmoved { IfErr result (λ e. e ≢ Fri OutOfMemory → self.new ≡ self.old) }
        ensures too_wide { Any (λ e. IsTooWide self.old.num_random_codewords e.1)
            evaluations.items → self.new ≡ self.old }
    {
        let codewords = self.num_random_codewords;
        check_matrices(codewords, self.fri.num_queries, EF::DIMENSION, &evaluations)?;
        let masked = mask_each(alloc, evaluations, codewords, &mut self.rng)?;
        self.commit_extended::<EF>(alloc, masked, false)
    }

    /// Commits to a batch of public matrices that are the same in every run, each with a row of
    /// zeros below each of its rows. They aren't hidden, but no less is asked of their heights.
    ///
    /// # Errors
    ///
    /// As of `commit`.
    ///
    /// # Examples
    ///
    /// ```
    /// let evaluations = vec![in alloc; (domain, RowMajorMatrix::new(public_values, 1))]?;
    /// let (commitment, mut data) = scheme.commit_preprocessing::<BabyBear4>(alloc, evaluations)?;
    /// ```
    pub fn commit_preprocessing<EF: ExtensionField<F>>(
        &mut self,
        alloc: Global,
        evaluations: Vec<(TwoAdicMultiplicativeCoset<F>, RowMajorMatrix<F>)>,
    ) -> Result<
        (
            InputMmcs::Commitment,
            HidingFriPcsProverData<InputMmcs::ProverData>,
        ),
        HidingFriProverError,
    >
        requires { All (λ e. FitsMasked F.TWO_ADICITY self.old.fri.log_blowup e.0.log_size e.1)
            evaluations.items }
        ensures kept { self.new ≡ self.old }
        ensures padded { IfOk result (λ pair. ExtendPadded ⟦<EF as ChallengeField<F>>⟧.fields
            (λ d. d.shift) (λ d. d.log_size) self.old.fri.log_blowup evaluations.items
            (InputMmcs.committed pair.1.inner)) }
        ensures data { IfOk result (λ pair. IsNew self.old.num_random_codewords
            self.old.fri.log_blowup true pair.1) }
        ensures budget { IsOk result → AllFit self.old.num_random_codewords
            self.old.fri.num_queries EF.DIMENSION
            (map (λ e. length (rows e.1)) evaluations.items) }
        ensures commitment { IfOk result (λ pair.
            InputMmcs.commitment_of pair.1.inner ≡ pair.0) }
        ensures openable { IfOk result (λ pair. IsPreprocessing
            ⟦<EF as ChallengeField<F>>⟧.fields InputMmcs.committed self.new.fri.log_blowup
            self.new.num_random_codewords pair.1) }
        ensures honest { IfOk result (λ pair.
            All (HoldsWords ⟦<EF as ChallengeField<F>>⟧.fields self.new.fri.log_blowup)
            (InputMmcs.committed pair.1.inner)) }
        ensures extends { IfOk result (λ pair. AllZip
            (λ m e. HasTrace ⟦<EF as ChallengeField<F>>⟧.fields e.0.shift e.0.log_size e.1 m)
            (shown_polynomials ⟦<EF as ChallengeField<F>>⟧.fields InputMmcs.committed
            self.new.fri.log_blowup self.new.num_random_codewords pair.1) evaluations.items) }
        ensures zeros { IfOk result (λ pair. AllZip
            (λ m e. HasZerosBetween ⟦<EF as ChallengeField<F>>⟧.fields e.0.shift e.0.log_size
            e.1 m)
            (shown_polynomials ⟦<EF as ChallengeField<F>>⟧.fields InputMmcs.committed
            self.new.fri.log_blowup self.new.num_random_codewords pair.1) evaluations.items) }
        ensures refused { IfErr result (MaskRefusal self.old.num_random_codewords
            self.old.fri.num_queries EF.DIMENSION
            (map (λ e. length (rows e.1)) evaluations.items)) }
    {
        let codewords = self.num_random_codewords;
        check_matrices(codewords, self.fri.num_queries, EF::DIMENSION, &evaluations)?;
        let padded = pad_each(alloc, evaluations)?;
        self.commit_extended::<EF>(alloc, padded, true)
    }
}
