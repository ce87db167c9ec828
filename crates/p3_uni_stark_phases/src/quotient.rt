//! The quotient: what it is made of on a coset off the trace's domain, and its chunks.

ghost use Rattle.std.specs.Prelude.{◌≡◌, ◌≢◌, ◌≤◌, ◌<◌, ◌+◌, ◌^◌, ◌%◌, ◌++◌, ℕ, [], map, length};
ghost use Rattle.std.specs.Prelude.{All, slice_index_or, IsOk, IfOk, IfErr, OnOk};
ghost use Rattle.std.specs.List.{AllZip};
ghost use Rattle.std.specs.Option.{option_copied};
ghost use Rattle.algebra.specs.Polynomial.{tabulate};
ghost use Rattle.p3_matrix.specs.Matrix.{rows, matrix_width};
ghost use Rattle.p3_periodic.specs.Columns.{HasPeriod};
ghost use Rattle.p3_periodic.specs.Tables.{table_row};
ghost use Rattle.p3_periodic.specs.Views.{table_rows, rows_if_any as owned_rows};
ghost use Rattle.p3_air.specs.Satisfied.{row_at};
ghost use Rattle.p3_air.specs.WellFormed.{IsWellFormed};
ghost use Rattle.p3_stark_pcs.specs.Evaluations.{HoldsEvaluations, held_at};
ghost use Rattle.p3_uni_stark_identity.specs.Laws.{IsOffSubgroup};
ghost use Rattle.p3_uni_stark_quotient.specs.Chunked.{chunk_rows};
ghost use Rattle.p3_uni_stark_quotient.specs.Given.{on_coset, FitsCoset};
ghost use Rattle.p3_uni_stark_quotient.specs.Quotient.{quotient_on_coset};
ghost use Rattle.p3_uni_stark_phases.specs.Evaluated.{CanBeRead, CanBeReadIfAny, AreReadIfAny};
ghost use Rattle.p3_uni_stark_phases.specs.Refusals.{EvaluationRefusal, PeriodicRefusal};
ghost use Rattle.p3_uni_stark_phases.specs.Chunks.{AreChunkPairs};

use crate::error::ProvingError;
use p3_air::Air;
use p3_field_core::{
    ExtensionField, Field, PackableField, TwoAdicField, TwoAdicMultiplicativeCoset,
};
use p3_matrix::RowMajorMatrix;
use p3_periodic::{PeriodicError, PeriodicLdeTable};
use p3_stark_pcs::UnivariateStarkPcs;
use p3_uni_stark_identity::quotient_chunk_domains;
use p3_uni_stark_quotient::{CosetColumns, quotient_chunks, quotient_values};
use std::alloc::{AllocError, Global};

/// Appends a row of the table, an entry to each column.
fn push_table_row<T: Copy>(
    values: &mut Vec<T>,
    table: &PeriodicLdeTable<T>,
    row: usize,
    width: usize,
) -> Result<(), AllocError>
    requires width { length (table_row (table_rows table.now) row) ≡ width }
    ensures { OnOk result (values.new.items
        ≡ values.old.items ++ table_row (table_rows table.now) row) }
{
    for column in 0..width {
        match table.get(row, column) {
            Some(value) => values.push(value)?,
            None => {},
        }
    }
    Ok(())
}

/// The rows of a table of at least one column.
fn table_matrix<T: Copy>(
    alloc: Global,
    table: &PeriodicLdeTable<T>,
    width: usize,
) -> Result<RowMajorMatrix<T>, AllocError>
    requires some_column { 0 < width }
    requires widths { (index : ℕ) → length (table_row (table_rows table.now) index) ≡ width }
    ensures rows { IfOk result (λ matrix.
        rows matrix ≡ tabulate (length (table_rows table.now)) (table_row (table_rows table.now))) }
    ensures width { IfOk result (λ matrix. matrix_width matrix ≡ width) }
{
    let mut values = Vec::new(alloc);
    for row in 0..table.height() {
        push_table_row(&mut values, table, row, width)?;
    }
    Ok(RowMajorMatrix::new(values, width))
}

/// The values of the periodic columns on a coset, if there are any: as many rows as there are
/// before they repeat.
pub fn periodic_on_coset<EF: Copy, C, P: UnivariateStarkPcs<EF, C>>(
    scheme: &P,
    alloc: Global,
    columns: &[Vec<P::Val>],
    trace_domain: P::Domain,
    coset: P::Domain,
) -> Result<Option<RowMajorMatrix<P::Val>>, ProvingError<P::ProverError>>
    requires sizes { (P.rules scheme.now).domain_size trace_domain
        ≤ (P.rules scheme.now).domain_size coset }
    requires some_point { 0 < (P.rules scheme.now).domain_size trace_domain }
    ensures periods { IsOk result
        → All (HasPeriod ((P.rules scheme.now).domain_size trace_domain)) columns.now }
    ensures values { IfOk result (λ found. (i : ℕ)
        → AllZip (P.IsPeriodicValue trace_domain (P.point coset i)) columns.now
        (row_at (owned_rows found) (i % length (owned_rows found)))) }
    ensures some_row { columns.now ≢ [] → IfOk result (λ found. 0 < length (owned_rows found)) }
    ensures widths { IfOk result (λ found.
        All (λ row. length row ≡ length columns.now) (owned_rows found)) }
    ensures refused { IfErr result
        (PeriodicRefusal ((P.rules scheme.now).domain_size trace_domain) columns.now) }
{
    let table = match scheme.build_periodic_lde_table(alloc, columns, trace_domain, coset) {
        Ok(table) => table,
        Err(PeriodicError::OutOfMemory) => return Err(ProvingError::OutOfMemory),
        Err(fault) => return Err(ProvingError::InvalidPeriodicColumns(fault)),
    };
    if columns.is_empty() {
        return Ok(None);
    }
    Ok(Some(table_matrix(alloc, &table, columns.len())?))
}

/// The values on a coset of the columns that a datum is a commitment to.
pub fn evaluate<EF: Copy, C, P: UnivariateStarkPcs<EF, C>>(
    scheme: &P,
    alloc: Global,
    committed: &P::ProverData,
    coset: P::Domain,
) -> Result<RowMajorMatrix<P::Val>, ProvingError<P::ProverError>>
    requires { CanBeRead (P.stark_rules scheme.now) coset committed.now }
    ensures values { let r = P.rules scheme.now in
        IfOk result (HoldsEvaluations P.embed (λ i. P.embed (P.point coset i))
        (r.domain_size coset) (held_at (r.committed_polynomials committed.now) 0).values_at) }
    ensures refused { IfErr result (EvaluationRefusal P.EvaluationRefuses) }
{
    match scheme.get_evaluations_on_domain(alloc, committed, 0, coset) {
        Ok(values) => Ok(values),
        Err(error) => Err(ProvingError::Evaluation(error)),
    }
}

/// The same of a datum that there may be.
pub fn evaluate_if<EF: Copy, C, P: UnivariateStarkPcs<EF, C>>(
    scheme: &P,
    alloc: Global,
    committed: &Option<P::ProverData>,
    coset: P::Domain,
) -> Result<Option<RowMajorMatrix<P::Val>>, ProvingError<P::ProverError>>
    requires { CanBeReadIfAny (P.stark_rules scheme.now) coset committed.now }
    ensures values { IfOk result
        (AreReadIfAny (P.rules scheme.now) P.embed P.point coset committed.now) }
    ensures refused { IfErr result (EvaluationRefusal P.EvaluationRefuses) }
{
    match committed {
        Some(known) => Ok(Some(evaluate(scheme, alloc, known, coset)?)),
        None => Ok(None),
    }
}

/// Each matrix beside the domain of its place.
fn on_domains<Domain: Copy, Val: Copy>(
    alloc: Global,
    domains: &[Domain],
    matrices: Vec<RowMajorMatrix<Val>>,
) -> Result<Vec<(Domain, RowMajorMatrix<Val>)>, AllocError>
    requires count { length domains.now ≡ length matrices.items }
    ensures domains { IfOk result (λ pairs. map (λ e. e.0) pairs.items ≡ domains.now) }
    ensures matrices { IfOk result (λ pairs. map (λ e. e.1) pairs.items ≡ matrices.items) }
{
    let mut pairs = Vec::with_capacity(alloc, domains.len())?;
    for matrix in matrices {
        let place = pairs.len();
        pairs.push((domains[place], matrix))?;
    }
    Ok(pairs)
}

/// The chunks of the quotient of the constraints' sum by powers of `alpha`, by the columns' values
/// on the coset of the field's `GENERATOR`, each on its own domain.
pub fn chunks_on_coset<F: TwoAdicField + PackableField, EF: ExtensionField<F>>(
    alloc: Global,
    air: &Air<F>,
    columns: &CosetColumns<'_, F>,
    log_size: usize,
    log_num_chunks: usize,
    coset: TwoAdicMultiplicativeCoset<F>,
    alpha: EF,
) -> Result<Vec<(TwoAdicMultiplicativeCoset<F>, RowMajorMatrix<F>)>, AllocError>
    requires well_formed { IsWellFormed air.now }
    requires size { coset.log_size ≡ log_size + log_num_chunks }
    requires shift { coset.shift ≡ F.GENERATOR }
    requires columns { FitsCoset air.now.layout (2 ^ coset.log_size) (on_coset columns.now) }
    requires off { IsOffSubgroup F.ops (F.root coset.log_size) coset.shift log_size }
    ensures domains { IfOk result (λ chunks. AreChunkPairs F.ops F.root F.GENERATOR EF.DIMENSION
        (λ d. d.shift) (λ d. d.log_size) log_size log_num_chunks chunks.items) }
    ensures rows { IfOk result (λ chunks. map (λ e. rows e.1) chunks.items
        ≡ tabulate (2 ^ log_num_chunks) (chunk_rows EF.coefficients EF.ops.zero log_size
        log_num_chunks (quotient_on_coset F.ops EF.ops EF.lift air.now (F.root log_size)
        (2 ^ log_size) alpha (on_coset columns.now) (F.root coset.log_size) coset.shift
        (2 ^ log_num_chunks) coset.log_size))) }
{
    let values = quotient_values(alloc, air, columns, log_size, log_num_chunks, coset, alpha)?;
    let chunks = quotient_chunks(alloc, values.as_slice(), log_size, log_num_chunks)?;
    let domains = quotient_chunk_domains::<F>(alloc, log_size, log_num_chunks)?;
    let pairs = on_domains(alloc, domains.as_slice(), chunks)?;
    Ok(pairs)
}
