//! The powers that lead from a trace's domain to that of a column.

ghost use Rattle.std.specs.Prelude.{◌≡◌, ◌≤◌, ◌-◌, ◌^◌};
ghost use Rattle.algebra.specs.Field.{pow};

use p3_field_core::{Field, TwoAdicField, TwoAdicMultiplicativeCoset};

/// The power of a point that takes the domain of a trace of `2^log_rows` rows to that of a column
/// of `2^log_period` entries.
pub(crate) fn power_to_period<F: Field>(point: F, log_rows: usize, log_period: usize) -> F
    requires { log_period ≤ log_rows }
    ensures { result ≡ pow F.ops point (2 ^ (log_rows - log_period)) }
{
    point.exp_power_of_2(log_rows - log_period)
}

/// The same power of a domain's shift.
pub(crate) fn shift_to_period<F: TwoAdicField>(
    domain: &TwoAdicMultiplicativeCoset<F>,
    log_rows: usize,
    log_period: usize,
) -> F
    requires { log_period ≤ log_rows }
    ensures { result ≡ pow F.ops domain.now.shift (2 ^ (log_rows - log_period)) }
{
    power_to_period(domain.shift(), log_rows, log_period)
}
