//! What an evaluator of periodic columns does.

ghost use Rattle.std.specs.Prelude.{◌≡◌, ◌≤◌, ◌/◌, ℕ, All, IfOk, MatchResult};
ghost use Rattle.std.specs.List.{AllZip};
ghost use Rattle.std.specs.declared.alloc.Global.{Global};
ghost use Rattle.std.specs.declared.vec.Vec.{Vec};
ghost use Rattle.algebra.specs.Field.{FieldOps};
ghost use Rattle.p3_periodic.specs.Columns.{HasPeriod, Refuses};
ghost use Rattle.p3_periodic.specs.Tables.{AreTabulated};
ghost use Rattle.p3_periodic.specs.Views.{table_rows};

use crate::error::PeriodicError;
use crate::table::PeriodicLdeTable;
use p3_field_core::{ExtensionField, Field};
use std::alloc::Global;

/// Evaluates periodic columns along traces on domains of the type `D`. `IsValue` says of an
/// extension's operations, of the embedding into it, of a trace's domain and a point, which value a
/// column has there.
pub trait PeriodicEvaluator<F: Field, D> {
    ghost domain_size: { D → ℕ };

    ghost domain_point: { D → ℕ → F };

    ghost IsValue: { {E : Type 0} → FieldOps E → (F → E) → D → E → Vec F Global → E → Type 0 };

    /// The table of the columns' values on a domain that isn't smaller than the trace's. Refused by
    /// the first column that doesn't repeat along the trace, before anything grows.
    fn eval_on_lde(
        alloc: Global,
        periodic_table: &[Vec<F>],
        trace_domain: &D,
        lde_domain: &D,
    ) -> Result<PeriodicLdeTable<F>, PeriodicError>
        requires { domain_size trace_domain.now ≤ domain_size lde_domain.now }
        ensures table { IfOk result (λ table. AreTabulated periodic_table.now
            (domain_size lde_domain.now / domain_size trace_domain.now)
            (λ index. IsValue F.ops (λ x. x) trace_domain.now (domain_point lde_domain.now index))
            (table_rows table)) }
        ensures exactly { MatchResult result
            (λ _. All (HasPeriod (domain_size trace_domain.now)) periodic_table.now)
            (Refuses (domain_size trace_domain.now) periodic_table.now) };

    /// The columns' values at `point`, in their order. Refused as the table.
    fn eval_at_point<EF: ExtensionField<F>>(
        alloc: Global,
        periodic_table: &[Vec<F>],
        trace_domain: &D,
        point: EF,
    ) -> Result<Vec<EF>, PeriodicError>
        ensures values { IfOk result (λ values. AllZip
            (IsValue EF.ops EF.lift trace_domain.now point) periodic_table.now values.items) }
        ensures exactly { MatchResult result
            (λ _. All (HasPeriod (domain_size trace_domain.now)) periodic_table.now)
            (Refuses (domain_size trace_domain.now) periodic_table.now) };
}
