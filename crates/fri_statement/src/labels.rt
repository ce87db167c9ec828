//! The labels of a statement, in bytes.

ghost use Rattle.std.specs.Prelude.{◌≡◌, ◌++◌, map, IfOk, OnOk};
ghost use Rattle.std.specs.List.{flat_map};
ghost use Rattle.p3_challenger_fs.specs.Pattern.{number_bytes};
ghost use Rattle.p3_fri_relation.specs.Views.{parameters_of};
ghost use Rattle.fri_statement.specs.Numbers.{coefficient_numbers};
ghost use Rattle.fri_statement.specs.Statement.{numbers_bytes, parameter_numbers};
ghost use Rattle.fri_statement.specs.Statement.{matrix_label};
ghost use Rattle.fri_statement.specs.Stated.{opened_matrix};
ghost use Rattle.fri_statement.specs.Hiding.{hiding_label};

use crate::stated::StatedMatrix;
use crate::stated_field::StatedField;
use p3_field::{ExtensionField, PrimeField64, TwoAdicField, TwoAdicMultiplicativeCoset};
use p3_fri_folding::FriParameters;
use std::alloc::{AllocError, Global};

/// Appends numbers in eight bytes each, the highest first.
fn push_numbers(label: &mut Vec<u8>, numbers: &[u64]) -> Result<(), AllocError>
    ensures { OnOk result (label.new.items ≡ label.old.items ++ numbers_bytes numbers.now) }
{
    for number in numbers {
        label.extend_from_slice(&number.to_be_bytes())?;
    }
    Ok(())
}

/// Appends the coefficients of a point, that of one first.
fn push_point<F: PrimeField64, EF: ExtensionField<F>>(
    label: &mut Vec<u8>,
    point: EF,
) -> Result<(), AllocError>
    ensures { OnOk result (label.new.items ≡ label.old.items ++ numbers_bytes
        (coefficient_numbers ⟦<EF as StatedField<F>>⟧.prime_fields point)) }
{
    for index in 0..EF::DIMENSION {
        push_numbers(label, &[point.coefficient(index).as_canonical_u64()])?;
    }
    Ok(())
}

/// Appends the coefficients of points.
fn push_points<F: PrimeField64, EF: ExtensionField<F>>(
    label: &mut Vec<u8>,
    points: &[EF],
) -> Result<(), AllocError>
    ensures { OnOk result (label.new.items ≡ label.old.items ++ flat_map numbers_bytes
        (map (coefficient_numbers ⟦<EF as StatedField<F>>⟧.prime_fields) points.now)) }
{
    for point in points {
        push_point::<F, EF>(label, *point)?;
    }
    Ok(())
}

/// The label of the parameters.
pub(crate) fn parameters_label<M>(
    alloc: Global,
    params: &FriParameters<M>,
) -> Result<Vec<u8>, AllocError>
    ensures { IfOk result (λ label.
        label.items ≡ numbers_bytes (parameter_numbers (parameters_of params.now))) }
{
    let numbers = [
        params.log_blowup as u64,
        params.log_final_poly_len as u64,
        params.max_log_arity as u64,
        params.num_queries as u64,
        params.batch_proof_of_work_bits as u64,
        params.commit_proof_of_work_bits as u64,
        params.query_proof_of_work_bits as u64,
    ];
    let mut label = Vec::new(alloc);
    push_numbers(&mut label, &numbers)?;
    Ok(label)
}

/// The label of a commitment to so many matrices.
pub(crate) fn commitment_label(
    alloc: Global,
    commitment: &[u8; 32],
    count: usize,
) -> Result<Vec<u8>, AllocError>
    ensures { IfOk result (λ label. label.items ≡ commitment.now ++ number_bytes count) }
{
    let mut label = Vec::from_slice(alloc, commitment)?;
    push_numbers(&mut label, &[count as u64])?;
    Ok(label)
}

/// The label of a matrix.
pub(crate) fn matrix_label<F: TwoAdicField + PrimeField64, EF: ExtensionField<F>>(
    alloc: Global,
    matrix: &StatedMatrix<EF, TwoAdicMultiplicativeCoset<F>>,
) -> Result<Vec<u8>, AllocError>
    ensures { IfOk result (λ label. label.items ≡ matrix_label (opened_matrix
        ⟦<EF as StatedField<F>>⟧.prime_fields (λ d. d.shift) (λ d. d.log_size) matrix.now)) }
{
    let numbers = [
        matrix.domain.shift().as_canonical_u64(),
        matrix.domain.log_size() as u64,
        matrix.width as u64,
    ];
    let mut label = Vec::new(alloc);
    push_numbers(&mut label, &numbers)?;
    push_points::<F, EF>(&mut label, &matrix.points)?;
    Ok(label)
}

/// The label of a number of random columns and of an index of preprocessing.
pub(crate) fn hiding_label(
    alloc: Global,
    num_random_codewords: usize,
    preprocessing: Option<usize>,
) -> Result<Vec<u8>, AllocError>
    ensures { IfOk result (λ label.
        label.items ≡ hiding_label num_random_codewords preprocessing) }
{
    let columns = num_random_codewords as u64;
    let mut label = Vec::new(alloc);
    match preprocessing {
        Some(index) => push_numbers(&mut label, &[columns, 1, index as u64])?,
        None => push_numbers(&mut label, &[columns, 0])?,
    }
    Ok(label)
}
