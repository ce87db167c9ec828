//! The evaluator of periodic columns over two-adic domains, and their values at a point.

ghost use Rattle.std.specs.Prelude.{◌≡◌, ◌≤◌, ◌-◌, ◌^◌, All, IfOk, MatchResult, length, map};
ghost use Rattle.std.specs.List.{AllZip};
ghost use Rattle.algebra.specs.Polynomial.{val};
ghost use Rattle.p3_field_core.specs.Coset.{coset_point};
ghost use Rattle.p3_periodic.specs.Columns.{IsPeriod, HasPeriod, Refuses};
ghost use Rattle.p3_periodic.specs.Tables.{AreTabulated};
ghost use Rattle.p3_periodic.specs.Values.{IsValueOf, IsValueAt, IsColumnValue};
ghost use Rattle.p3_periodic.specs.Views.{table_rows};

use crate::columns::PeriodicColumns;
use crate::error::PeriodicError;
use crate::extension::build_periodic_lde_table_two_adic;
use crate::powers::power_to_period;
use crate::table::PeriodicLdeTable;
use crate::traits::PeriodicEvaluator;
use p3_dft::TwoAdicSubgroupDft;
use p3_field_core::{
    ExtensionField, Field, TwoAdicField, TwoAdicMultiplicativeCoset, log2_strict_usize,
};
use std::alloc::{AllocError, Global};
use std::marker::PhantomData;

/// The column over an extension of its field.
fn lift_column<F: Field, EF: ExtensionField<F>>(
    alloc: Global,
    column: &[F],
) -> Result<Vec<EF>, AllocError>
    ensures { IfOk result (λ lifted. lifted.items ≡ map EF.lift column.now) }
{
    let mut lifted = Vec::with_capacity(alloc, column.len())?;
    for i in 0..column.len() {
        lifted.push(EF::from_base(column[i]))?;
    }
    Ok(lifted)
}

/// The polynomial's value at a point, by Horner's rule.
fn evaluate<F: Field>(coefficients: &[F], point: F) -> F
    ensures { result ≡ val F.ops coefficients.now point }
{
    let mut value = F::ZERO;
    for k in (0..coefficients.len()).rev() {
        value = coefficients[k] + point * value;
    }
    value
}

/// The value at `point` of one column along a trace of `2^log_rows` rows: that of its interpolant
/// at the power of the point that takes the trace's domain to the column's.
fn column_at_point<F: TwoAdicField, EF: ExtensionField<F>, Dft: TwoAdicSubgroupDft<F>>(
    alloc: Global,
    dft: &Dft,
    column: &[F],
    log_rows: usize,
    point: EF,
) -> Result<EF, AllocError>
    requires period { IsPeriod (2 ^ log_rows) (length column.now) }
    requires within_two_adicity { log_rows ≤ F.TWO_ADICITY }
    ensures { IfOk result (IsValueOf EF.ops (λ k. EF.lift (F.root k)) log_rows point
        (map EF.lift column.now)) }
{
    let log_period = log2_strict_usize(column.len());
    let lifted = lift_column::<F, EF>(alloc, column)?;
    let coefficients = dft.idft_algebra(alloc, lifted)?;
    let power = power_to_period(point, log_rows, log_period);
    Ok(evaluate(&coefficients, power))
}

/// The values at `point` of the columns along a trace of `2^log_rows` rows, in their order.
fn values_at_point<F: TwoAdicField, EF: ExtensionField<F>, Dft: TwoAdicSubgroupDft<F>>(
    alloc: Global,
    dft: &Dft,
    columns: &[Vec<F>],
    log_rows: usize,
    point: EF,
) -> Result<Vec<EF>, AllocError>
    requires periods { All (HasPeriod (2 ^ log_rows)) columns.now }
    requires within_two_adicity { log_rows ≤ F.TWO_ADICITY }
    ensures { IfOk result (λ values. AllZip (IsValueAt EF.ops (λ k. EF.lift (F.root k)) log_rows
        point EF.lift) columns.now values.items) }
{
    let mut values = Vec::with_capacity(alloc, columns.len())?;
    for i in 0..columns.len() {
        values.push(column_at_point(alloc, dft, columns[i].as_slice(), log_rows, point)?)?;
    }
    Ok(values)
}

/// The periodic values of the columns at `point`, by the given transform: with `n` the size of the
/// trace's domain, each column's one interpolant of `p` entries over the powers of the root of
/// unity of order `p`, at the power `n / p` of the point. Of the domain only the size is read.
/// Refused by the first column that doesn't repeat along the trace, before anything grows.
fn table_at_point<F: TwoAdicField, EF: ExtensionField<F>, Dft: TwoAdicSubgroupDft<F>>(
    alloc: Global,
    dft: &Dft,
    periodic_table: &[Vec<F>],
    trace_domain: &TwoAdicMultiplicativeCoset<F>,
    point: EF,
) -> Result<Vec<EF>, PeriodicError>
    ensures values { IfOk result (λ values. AllZip (IsValueAt EF.ops (λ k. EF.lift (F.root k))
        trace_domain.now.log_size point EF.lift) periodic_table.now values.items) }
    ensures exactly { MatchResult result
        (λ _. All (HasPeriod (2 ^ trace_domain.now.log_size)) periodic_table.now)
        (Refuses (2 ^ trace_domain.now.log_size) periodic_table.now) }
{
    let columns = match PeriodicColumns::new(periodic_table, trace_domain.size()) {
        Ok(columns) => columns,
        Err(fault) => return Err(fault),
    };
    let log_rows = trace_domain.log_size();
    match values_at_point(alloc, dft, columns.as_slice(), log_rows, point) {
        Ok(values) => Ok(values),
        Err(AllocError) => Err(PeriodicError::OutOfMemory),
    }
}

/// Evaluates periodic columns along traces on two-adic domains, by transforms of the type `Dft`.
#[derive(Clone, Copy, Debug)]
pub struct TwoAdicPeriodicEvaluator<Dft>(PhantomData<Dft>);

impl<Dft> Default for TwoAdicPeriodicEvaluator<Dft> {
    fn default() -> Self {
        TwoAdicPeriodicEvaluator(PhantomData)
    }
}

impl<Dft> TwoAdicPeriodicEvaluator<Dft> {
    /// The table of the columns' values on `lde_domain`, by the given transform.
    pub fn eval_on_lde_with_dft<F: TwoAdicField>(
        alloc: Global,
        dft: &Dft,
        periodic_table: &[Vec<F>],
        trace_domain: &TwoAdicMultiplicativeCoset<F>,
        lde_domain: &TwoAdicMultiplicativeCoset<F>,
    ) -> Result<PeriodicLdeTable<F>, PeriodicError>
    where
        Dft: TwoAdicSubgroupDft<F>,
        requires { trace_domain.now.log_size ≤ lde_domain.now.log_size }
        ensures table { IfOk result (λ table. AreTabulated periodic_table.now
            (2 ^ (lde_domain.now.log_size - trace_domain.now.log_size))
            (λ index. IsColumnValue F.ops F.root trace_domain.now.log_size
            (coset_point F.ops (F.root lde_domain.now.log_size) lde_domain.now.shift index))
            (table_rows table)) }
        ensures exactly { MatchResult result
            (λ _. All (HasPeriod (2 ^ trace_domain.now.log_size)) periodic_table.now)
            (Refuses (2 ^ trace_domain.now.log_size) periodic_table.now) }
    {
        build_periodic_lde_table_two_adic(alloc, dft, periodic_table, trace_domain, lde_domain)
    }
}

impl<F: TwoAdicField, Dft: TwoAdicSubgroupDft<F> + Default + Drop> PeriodicEvaluator<
    F,
    TwoAdicMultiplicativeCoset<F>,
> for TwoAdicPeriodicEvaluator<Dft> {
    ghost domain_size = { λ domain. 2 ^ domain.log_size };

    ghost domain_point = { λ domain. coset_point F.ops (F.root domain.log_size) domain.shift };

    ghost IsValue = { λ K lift trace z. IsValueAt K (λ k. lift (F.root k)) trace.log_size z lift };

    /// The table of the columns' values on `lde_domain`, by a transform of its own.
    fn eval_on_lde(
        alloc: Global,
        periodic_table: &[Vec<F>],
        trace_domain: &TwoAdicMultiplicativeCoset<F>,
        lde_domain: &TwoAdicMultiplicativeCoset<F>,
    ) -> Result<PeriodicLdeTable<F>, PeriodicError> {
        let dft = Dft::default();
        Self::eval_on_lde_with_dft(alloc, &dft, periodic_table, trace_domain, lde_domain)
    }

    /// The periodic values of the columns at `point`. Of the domain only the size is read.
    fn eval_at_point<EF: ExtensionField<F>>(
        alloc: Global,
        periodic_table: &[Vec<F>],
        trace_domain: &TwoAdicMultiplicativeCoset<F>,
        point: EF,
    ) -> Result<Vec<EF>, PeriodicError> {
        table_at_point(alloc, &Dft::default(), periodic_table, trace_domain, point)
    }
}
