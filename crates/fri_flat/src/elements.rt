//! Matrices whose values are read as elements, in the flat form of those whose values are their
//! numbers: no list of the numbers is made.

ghost use Rattle.std.specs.Prelude.{◌≡◌, ◌++◌, IfOk};
ghost use Rattle.fri_numbers.specs.Elements.{batch_of, record_of};
ghost use Rattle.fri_flat.specs.Flat.{matrix, IsMatrix, batch, IsBatch};

use crate::fault::ReadError;
use crate::layout::Layout;
use crate::reader::Reader;
use crate::records::value_count;
use fri_prover::ElementMatrix;
use fri_requests::Domain;
use p3_field::PrimeField64;
use std::alloc::Global;

/// Reads a matrix.
fn read_matrix<F: PrimeField64>(
    alloc: Global,
    layout: Layout,
    reader: &mut Reader<'_>,
) -> Result<ElementMatrix<F>, ReadError>
    ensures form { IfOk result (λ m. reader.old.left.now
        ≡ matrix layout (record_of F.canonical m) ++ reader.new.left.now) }
    ensures whole { IfOk result (λ m. IsMatrix layout (record_of F.canonical m)) }
{
    let shift = reader.number(layout)?;
    let log_size = reader.word()? as usize;
    let width = reader.word()? as usize;
    let points = reader.word()? as usize;
    let Some(values) = value_count(width, log_size) else {
        return Err(reader.missing());
    };
    Ok(ElementMatrix {
        domain: Domain { shift, log_size },
        width,
        values: reader.values(alloc, layout, values)?,
        points: reader.elements(alloc, layout, points)?,
    })
}

/// The matrices of the batch in these bytes. Where they are no batch's, or a value is no element,
/// there are none.
pub(crate) fn element_matrices<F: PrimeField64>(
    alloc: Global,
    layout: Layout,
    bytes: &[u8],
) -> Result<Vec<ElementMatrix<F>>, ReadError>
    ensures form { IfOk result (λ ms. bytes.now ≡ batch layout (batch_of F.canonical ms)) }
    ensures whole { IfOk result (λ ms. IsBatch layout (batch_of F.canonical ms)) }
{
    let mut reader = Reader { left: bytes };
    let count = reader.count()?;
    let mut matrices = Vec::with_capacity(alloc, count)?;
    for _ in 0..count {
        matrices.push(read_matrix(alloc, layout, &mut reader)?)?;
    }
    if !reader.left.is_empty() {
        return Err(reader.missing());
    }
    Ok(matrices)
}
