//! The trait of schemes that a STARK prover uses.

ghost use Rattle.std.specs.Prelude.{◌≡◌, ◌≢◌, ◌↔◌, ◌≤◌, ◌*◌, ◌/◌, ℕ, Bool, true, false};
ghost use Rattle.std.specs.Prelude.{if◌then◌else◌};
ghost use Rattle.std.specs.Prelude.{List, None, map, All, IsOk, IfOk, IfErr, IsSome, IfSome};
ghost use Rattle.std.specs.Prelude.{MatchResult, Err};
ghost use Rattle.std.specs.List.{AllZip};
ghost use Rattle.std.specs.declared.alloc.Global.{Global};
ghost use Rattle.std.specs.declared.vec.Vec.{Vec};
ghost use Rattle.p3_matrix.specs.declared.dense.RowMajorMatrix.{RowMajorMatrix};
ghost use Rattle.p3_pcs.specs.Claims.{claim, opened_values};
ghost use Rattle.p3_pcs.specs.Requests.{Held, request, with_data};
ghost use Rattle.p3_pcs.specs.Scheme.{AreHonestIn, values_asked, FitRequests, claims_asked};
ghost use Rattle.p3_periodic.specs.Columns.{HasPeriod, Refuses};
ghost use Rattle.p3_periodic.specs.Tables.{AreTabulated};
ghost use Rattle.p3_periodic.specs.Views.{table_rows};
ghost use Rattle.p3_stark_pcs.specs.Evaluations.{HoldsEvaluations, held_at, HasPolynomials};
ghost use Rattle.p3_stark_pcs.specs.Evaluations.{HasShape, HaveRows};
ghost use Rattle.p3_stark_pcs.specs.Scheme.{StarkScheme, IsLawfulStark, IsPlain, AreKeptStark};

use p3_matrix::RowMajorMatrix;
use p3_mmcs::{CommitmentOpening, OpenedValues};
use p3_pcs::{OpeningRequest, Pcs};
use p3_periodic::{PeriodicError, PeriodicLdeTable};
use std::alloc::Global;

/// A scheme of polynomials in one variable, as a STARK prover uses it: beside its trace it commits
/// to preprocessed columns, to quotients that it extends itself, and reads committed columns and
/// periodic ones on other domains.
///
/// One round of an opening may be named as preprocessing. A scheme that hides opens it without
/// masks; to one that doesn't the name says nothing, which the laws state.
pub trait UnivariateStarkPcs<EF: Copy, C>: Pcs<EF, C> {
    /// Whether the scheme adds random columns and rows to what it commits to, as a hiding scheme
    /// does.
    const ZK: bool;

    ghost ZK: { Bool };

    /// What the scheme offers to a STARK.
    ghost stark_rules: { Self → StarkScheme EF Self.Val Self.Domain Self.ProverData
        Self.ProverError };

    /// An element of the matrices in the larger field.
    ghost embed: { Self.Val → EF };

    /// The point of a domain at an index, in natural order.
    ghost point: { Self.Domain → ℕ → Self.Val };

    /// The matrices of words that a datum holds.
    ghost matrices_of: { Self.ProverData → List (RowMajorMatrix Self.Val) };

    /// The polynomials of a chunk: those of least degree that have its columns on its domain.
    ghost chunk_polynomials: { Self.Domain × RowMajorMatrix Self.Val → Held EF };

    /// The recombined quotient at a point, column by column, of chunks on these domains that have
    /// these values there.
    ghost recombined: { List Self.Domain → List (List EF) → EF → List EF };

    /// A reading may be refused for this reason.
    ghost EvaluationRefuses: { Self.ProverError → Type 0 };

    /// A periodic column of a trace on the domain has this value at a point.
    ghost IsPeriodicValue: { Self.Domain → Self.Val → Vec Self.Val Global → Self.Val → Type 0 };

    /// The logarithm of the greatest height of a trace.
    fn log_max_trace_height(&self) -> usize
        ensures greatest { result ≡ (stark_rules self.now).greatest_log_height };

    /// The logarithm of the least height of a trace.
    fn log_min_trace_height(&self) -> usize
        ensures least { result ≡ (stark_rules self.now).least_log_height };

    /// Commits to columns that are the same in every run, as `commit` does.
    fn commit_preprocessing(
        &mut self,
        alloc: Global,
        evaluations: Vec<(Self::Domain, RowMajorMatrix<Self::Val>)>,
    ) -> Result<(Self::Commitment, Self::ProverData), Self::ProverError>
        requires room { (Self.rules self.old).CanCommit evaluations.items }
        ensures kept { Self.Keeps self.old self.new }
        ensures unchanged { ZK ≡ false → self.new ≡ self.old }
        ensures commitment { IfOk result (λ pair. (Self.rules self.new).commitment_of pair.1
            ≡ pair.0) }
        ensures openable { IfOk result (λ pair. (stark_rules self.new).CanOpenPreprocessed pair.1) }
        ensures honest { IfOk result (λ pair. (Self.rules self.new).IsHonest pair.1) }
        ensures extends { IfOk result (λ pair.
            AllZip ((Self.rules self.new).Extends)
            ((Self.rules self.new).committed_polynomials pair.1)
            evaluations.items) }
        ensures refused { IfErr result
            ((stark_rules self.old).PreprocessingRefuses evaluations.items) };

    /// The words that are committed to for these chunks of a quotient, each of the values of its
    /// columns on the domain beside it. There are as many as `num_chunks` says. The chunks
    /// recombine to one quotient before and after, and where the scheme doesn't hide the words are
    /// those of the chunks' polynomials.
    fn get_quotient_ldes(
        &mut self,
        alloc: Global,
        evaluations: Vec<(Self::Domain, RowMajorMatrix<Self::Val>)>,
        num_chunks: usize,
    ) -> Result<Vec<RowMajorMatrix<Self::Val>>, Self::ProverError>
        requires room { (stark_rules self.old).CanExtend evaluations.items num_chunks }
        ensures kept { Self.Keeps self.old self.new }
        ensures unchanged { ZK ≡ false → self.new ≡ self.old }
        ensures words { IfOk result (λ ldes.
            (stark_rules self.new).ExtendQuotients evaluations.items ldes.items) }
        ensures sizes { IfOk result (λ ldes.
            AllZip (λ lde e. ((stark_rules self.new).polynomials_of lde).size
            ≡ (if ZK then 2 else 1) *
            (Self.rules self.new).domain_size e.0) ldes.items evaluations.items) }
        ensures chunks { ZK ≡ false → IfOk result (λ ldes.
            AllZip (λ lde e. HasPolynomials ((stark_rules self.new).polynomials_of lde)
            (chunk_polynomials e))
            ldes.items evaluations.items) }
        ensures recombined { IfOk result (λ ldes. (z : EF)
            → recombined (map (λ e. e.0) evaluations.items)
            (map (λ lde. ((stark_rules self.new).polynomials_of lde).values_at z) ldes.items) z
            ≡ recombined (map (λ e. e.0) evaluations.items)
            (map (λ e. (chunk_polynomials e).values_at z) evaluations.items) z) }
        ensures committable { IfOk result (λ ldes.
            (stark_rules self.new).CanCommitLdes ldes.items) }
        ensures openable { IfOk result (λ ldes. (stark_rules self.new).CanOpenLdes ldes.items) }
        ensures low_degree { IfOk result (λ ldes. (stark_rules self.new).AreLdes ldes.items) }
        ensures refused { IfErr result ((stark_rules self.old).QuotientsRefuse evaluations.items) };

    /// Commits to words that were extended before. The data holds these matrices, and what was
    /// committed to where they are words of low degree. It may be opened where the words leave room
    /// for what hides them, as those of `get_quotient_ldes` do.
    fn commit_ldes(
        &self,
        alloc: Global,
        ldes: Vec<RowMajorMatrix<Self::Val>>,
    ) -> Result<(Self::Commitment, Self::ProverData), Self::ProverError>
        requires room { (stark_rules self.now).CanCommitLdes ldes.items }
        ensures matrices { IfOk result (λ pair. matrices_of pair.1 ≡ ldes.items) }
        ensures commitment { IfOk result (λ pair. (Self.rules self.now).commitment_of pair.1
            ≡ pair.0) }
        ensures polynomials { IfOk result (λ pair.
            (Self.rules self.now).committed_polynomials pair.1
            ≡ map ((stark_rules self.now).polynomials_of) ldes.items) }
        ensures openable { (stark_rules self.now).CanOpenLdes ldes.items
            → IfOk result (λ pair. (Self.rules self.now).CanOpen pair.1) }
        ensures readable { IfOk result (λ pair. (stark_rules self.now).IsReadable pair.1) }
        ensures honest { (stark_rules self.now).AreLdes ldes.items
            → IfOk result (λ pair. (Self.rules self.now).IsHonest pair.1) }
        ensures refused { IfErr result ((stark_rules self.now).LdesRefuse ldes.items) };

    /// The values on a domain, in natural order, of the polynomials of one committed matrix,
    /// without columns that only hide the others.
    fn get_evaluations_on_domain(
        &self,
        alloc: Global,
        prover_data: &Self::ProverData,
        index: usize,
        domain: Self::Domain,
    ) -> Result<RowMajorMatrix<Self::Val>, Self::ProverError>
        requires readable { (stark_rules self.now).CanEvaluate prover_data.now index domain }
        ensures values { let r = Self.rules self.now in
            (stark_rules self.now).IsHonestAt prover_data.now index
            → IfOk result (HoldsEvaluations embed (λ i. embed (point domain i))
            (r.domain_size domain)
            (held_at (r.committed_polynomials prover_data.now) index).values_at) }
        ensures refused { IfErr result EvaluationRefuses };

    /// The same of all columns.
    fn get_evaluations_on_domain_no_random(
        &self,
        alloc: Global,
        prover_data: &Self::ProverData,
        index: usize,
        domain: Self::Domain,
    ) -> Result<RowMajorMatrix<Self::Val>, Self::ProverError>
        requires readable { (stark_rules self.now).CanEvaluateWhole prover_data.now index domain }
        ensures values { (stark_rules self.now).IsHonestAt prover_data.now index
            → IfOk result (HoldsEvaluations embed (λ i. embed (point domain i))
            ((Self.rules self.now).domain_size domain)
            (held_at ((stark_rules self.now).whole_polynomials prover_data.now) index).values_at) }
        ensures refused { IfErr result EvaluationRefuses };

    /// The table of periodic columns on a domain that isn't smaller than their trace's: `P * b`
    /// rows, with `P` the greatest length of a column and `b` the number of the domain's points for
    /// each row of the trace. The row at an index, modulo their number, has each column's value at
    /// the domain's point of that index. Refused by the first column whose length isn't a power of
    /// two or doesn't divide the trace's height, before anything grows.
    fn build_periodic_lde_table(
        &self,
        alloc: Global,
        periodic_table: &[Vec<Self::Val>],
        trace_domain: Self::Domain,
        quotient_domain: Self::Domain,
    ) -> Result<PeriodicLdeTable<Self::Val>, PeriodicError>
        requires larger { (Self.rules self.now).domain_size trace_domain ≤
            (Self.rules self.now).domain_size quotient_domain }
        ensures table { IfOk result (λ table. AreTabulated periodic_table.now
            ((Self.rules self.now).domain_size quotient_domain /
            (Self.rules self.now).domain_size trace_domain)
            (λ index. IsPeriodicValue trace_domain (point quotient_domain index))
            (table_rows table)) }
        ensures exactly { MatchResult result
            (λ _. All (HasPeriod ((Self.rules self.now).domain_size trace_domain))
            periodic_table.now)
            (Refuses ((Self.rules self.now).domain_size trace_domain) periodic_table.now) };

    /// A commitment to random polynomials, on each domain as many as `random_columns` says, where
    /// the scheme hides. One that doesn't hide has none.
    fn get_opt_randomization_poly_commitment(
        &mut self,
        alloc: Global,
        domains: Vec<Self::Domain>,
    ) -> Result<Option<(Self::Commitment, Self::ProverData)>, Self::ProverError>
        requires room { (stark_rules self.old).CanRandomize domains.items }
        ensures kept { Self.Keeps self.old self.new }
        ensures unchanged { ZK ≡ false → self.new ≡ self.old }
        ensures none { ZK ≡ false → IfOk result (λ found. found ≡ None) }
        ensures some { ZK ≡ true → IfOk result (λ found. IsSome found) }
        ensures commitment { let r = Self.rules self.new in IfOk result (λ found.
            IfSome found (λ pair. r.commitment_of pair.1 ≡ pair.0)) }
        ensures openable { let r = Self.rules self.new in
            IfOk result (λ found. IfSome found (λ pair. r.CanOpen pair.1)) }
        ensures honest { let r = Self.rules self.new in
            IfOk result (λ found. IfSome found (λ pair. r.IsHonest pair.1)) }
        ensures random { let r = Self.rules self.new in IfOk result (λ found.
            IfSome found (λ pair. AllZip (λ m d. HasShape (r.domain_size d)
            (stark_rules self.new).random_columns m) (r.committed_polynomials pair.1)
            domains.items)) }
        ensures refused { IfErr result
            ((stark_rules self.old).RandomizationRefuses domains.items) };

    /// As `open`, where the index names the request of preprocessed columns, if there is one.
    fn open_with_preprocessing(
        &self,
        alloc: Global,
        requests: &mut [OpeningRequest<'_, Self::ProverData, EF>],
        challenger: &mut C,
        preprocessing: Option<usize>,
    ) -> Result<(OpenedValues<EF>, Self::Proof), Self::ProverError>
        requires range { (Self.rules self.now).InProverRange }
        requires shape { (stark_rules self.now).CanOpenAt preprocessing
            (map request requests.old) }
        ensures values { let r = Self.rules self.now in let asked = map request requests.old in
            AreHonestIn r asked
            → IfOk result (λ opening. opened_values opening.0.items ≡ values_asked r asked) }
        ensures accepted { let r = Self.rules self.now in let asked = map request requests.old in
            AreHonestIn r asked → IfOk result (λ opening. (domains : List (List Self.Domain))
            → FitRequests r domains asked
            → r.Accepts preprocessing challenger.old (claims_asked r domains asked) opening.1) }
        ensures state { let r = Self.rules self.now in let asked = map request requests.old in
            AreHonestIn r asked → IfOk result (λ opening. (domains : List (List Self.Domain))
            → FitRequests r domains asked → challenger.new
            ≡ r.last_state preprocessing challenger.old (claims_asked r domains asked)
            opening.1) }
        ensures checked { IsOk result
            → (Self.rules self.now).PassesChecks preprocessing (map request requests.old) }
        ensures opened { let r = Self.rules self.now in
            r.PassesChecks preprocessing (map request requests.old)
            → requests.new ≡ map (with_data r.after_opening) requests.old }
        ensures unopened { ¬ (Self.rules self.now).PassesChecks preprocessing
            (map request requests.old)
            → requests.new ≡ requests.old }
        ensures refused { IfErr result ((Self.rules self.now).Refuses preprocessing
            challenger.old (map request requests.old)) }
        ensures unmoved { IfErr result (λ e.
            (Self.rules self.now).LeavesState e → challenger.new ≡ challenger.old) }
        ensures untouched { IfErr result (λ e.
            (Self.rules self.now).LeavesState e → requests.new ≡ requests.old) };

    /// As `verify`, where the index names the claims of preprocessed columns, if there are such.
    fn verify_with_preprocessing(
        &self,
        alloc: Global,
        claims: Vec<CommitmentOpening<EF, Self::Commitment, Self::Domain>>,
        proof: &Self::Proof,
        challenger: &mut C,
        preprocessing: Option<usize>,
    ) -> Result<(), Self::Error>
        requires range { (Self.rules self.now).InVerifierRange }
        ensures exactly { let r = Self.rules self.now in result ≢ Err r.out_of_memory
            → (IsOk result
            ↔ r.Accepts preprocessing challenger.old (map claim claims.items) proof.now) }
        ensures state { IsOk result → challenger.new ≡ (Self.rules self.now).last_state
            preprocessing challenger.old (map claim claims.items) proof.now }
        ensures stands { IfErr result ((Self.rules self.now).IsTrueRefusal preprocessing
            (map claim claims.items) proof.now challenger.old) }
        ensures unmoved { IfErr result (λ e.
            (Self.rules self.now).LeavesVerifier e → challenger.new ≡ challenger.old) };

    ghost stark_law: { (s : Self) → IsLawfulStark (Self.rules s) (stark_rules s) };

    ghost rows_law: { (s : Self) (m : Held EF) (e : Self.Domain × RowMajorMatrix Self.Val)
        → (Self.rules s).Extends m e
        → HaveRows embed (point e.0) (if ZK then 2 else 1) e.1 m };

    ghost plain_law: { ZK ≡ false → (s : Self) → IsPlain (Self.rules s) (stark_rules s) };

    ghost keeps_stark_law: { (old new : Self) → Self.Keeps old new
        → AreKeptStark (stark_rules old) (stark_rules new) };
}
