//! Which heights can be proved and opened.

ghost use Rattle.std.specs.Prelude.{◌↔◌, IsOk, IfErr};
ghost use Rattle.p3_fri_relation.specs.TallEnough.{IsTallEnough, HeightRefusal};
ghost use Rattle.p3_fri_relation.specs.Views.{parameters_of};

use p3_fri_folding::{FriParameters, FriProverError};

/// Whether a word of this log height can be proved, and a matrix opened: a final polynomial that is
/// not constant is sent only of a taller word than its own.
///
/// # Errors
///
/// `InputHeightTooSmall` with both log heights, or `FinalHeightOverflow` where the final one has no
/// number.
pub fn validate_input_height<M>(
    params: &FriParameters<M>,
    log_input_height: usize,
) -> Result<(), FriProverError>
    ensures tall_enough { IsOk result ↔ IsTallEnough (parameters_of params.now) log_input_height }
    ensures refused { IfErr result (HeightRefusal (parameters_of params.now) log_input_height) }
{
    if params.log_final_poly_len == 0 {
        return Ok(());
    }
    let Some(log_final_height) = params.log_blowup.checked_add(params.log_final_poly_len) else {
        return Err(FriProverError::FinalHeightOverflow);
    };
    if log_input_height <= log_final_height {
        return Err(FriProverError::InputHeightTooSmall {
            log_input_height,
            log_final_height,
        });
    }
    Ok(())
}
