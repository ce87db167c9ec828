//! The records of the plain scheme in the flat form.

ghost use Rattle.std.specs.Prelude.{◌≡◌, ◌*◌, ◌^◌, IfSome};
ghost use Rattle.std.specs.List.{All};
ghost use Rattle.fri_flat.specs.Flat.{parameters, matrix, IsMatrix, batch, IsBatch, request};
ghost use Rattle.fri_flat.specs.Flat.{IsRequest, point_claims, IsPointClaims, matrix_claims};
ghost use Rattle.fri_flat.specs.Flat.{IsMatrixClaims, batch_claims, IsBatchClaims};

use crate::fault::{ReadError, WriteError};
use crate::flat::Flat;
use crate::layout::Layout;
use crate::reader::Reader;
use crate::writer::{
    push_context, push_count, push_counts, push_digest, push_element, push_elements, push_number,
    push_numbers,
};
use fri_requests::{
    Batch, BatchClaims, Domain, Matrix, MatrixClaims, Parameters, PointClaims, Request,
};
use std::alloc::Global;

impl Flat for Parameters {
    type Value = Parameters;

    ghost form = { λ _. parameters };

    ghost IsWhole = { λ _ _. Unit {0} };

    fn read(
        _alloc: Global,
        _layout: Layout,
        reader: &mut Reader<'_>,
    ) -> Result<Parameters, ReadError> {
        Ok(Parameters {
            log_blowup: reader.word()? as usize,
            log_final_poly_len: reader.word()? as usize,
            max_log_arity: reader.word()? as usize,
            num_queries: reader.word()? as usize,
            batch_proof_of_work_bits: reader.word()? as usize,
            commit_proof_of_work_bits: reader.word()? as usize,
            query_proof_of_work_bits: reader.word()? as usize,
        })
    }

    fn write(
        parameters: &Parameters,
        _layout: Layout,
        out: &mut Vec<u8>,
    ) -> Result<(), WriteError> {
        let sizes = [
            parameters.log_blowup,
            parameters.log_final_poly_len,
            parameters.max_log_arity,
            parameters.num_queries,
            parameters.batch_proof_of_work_bits,
            parameters.commit_proof_of_work_bits,
            parameters.query_proof_of_work_bits,
        ];
        push_counts(out, &sizes)
    }
}

/// The number of values in so many columns of `2^log_size`. More than 64 bits count there can't be.
pub(crate) fn value_count(width: usize, log_size: usize) -> Option<usize>
    ensures { IfSome result (λ count. count ≡ width * 2 ^ log_size) }
{
    if width == 0 {
        return Some(0);
    }
    if log_size > 31 {
        return None;
    }
    width.checked_mul(1 << log_size)
}

/// The shift, the size, the width and the number of points, then values and points.
impl Flat for Matrix {
    type Value = Matrix;

    ghost form = { matrix };

    ghost IsWhole = { IsMatrix };

    fn read(alloc: Global, layout: Layout, reader: &mut Reader<'_>) -> Result<Matrix, ReadError> {
        let shift = reader.number(layout)?;
        let log_size = reader.word()? as usize;
        let width = reader.word()? as usize;
        let points = reader.word()? as usize;
        let Some(values) = value_count(width, log_size) else {
            return Err(reader.missing());
        };
        Ok(Matrix {
            domain: Domain { shift, log_size },
            width,
            values: reader.numbers(alloc, layout, values)?,
            points: reader.elements(alloc, layout, points)?,
        })
    }

    fn write(matrix: &Matrix, layout: Layout, out: &mut Vec<u8>) -> Result<(), WriteError> {
        let sizes = [matrix.domain.log_size, matrix.width, matrix.points.len()];
        push_number(out, layout, matrix.domain.shift)?;
        push_counts(out, &sizes)?;
        push_numbers(out, layout, &matrix.values)?;
        push_elements(out, layout, &matrix.points)?;
        Ok(())
    }
}

impl Flat for Batch {
    type Value = Batch;

    ghost form = { batch };

    ghost IsWhole = { IsBatch };

    fn read(alloc: Global, layout: Layout, reader: &mut Reader<'_>) -> Result<Batch, ReadError> {
        Ok(Batch {
            matrices: Vec::<Matrix>::read(alloc, layout, reader)?,
            preprocessed: false,
        })
    }

    fn write(batch: &Batch, layout: Layout, out: &mut Vec<u8>) -> Result<(), WriteError> {
        if batch.preprocessed {
            return Err(WriteError::NoForm);
        }
        Vec::<Matrix>::write(&batch.matrices, layout, out)
    }
}

impl Flat for Request {
    type Value = Request;

    ghost form = { request };

    ghost IsWhole = { IsRequest };

    fn read(alloc: Global, layout: Layout, reader: &mut Reader<'_>) -> Result<Request, ReadError> {
        Ok(Request {
            context: reader.context(alloc)?,
            parameters: Parameters::read(alloc, layout, reader)?,
            commitments: Vec::<Batch>::read(alloc, layout, reader)?,
        })
    }

    fn write(request: &Request, layout: Layout, out: &mut Vec<u8>) -> Result<(), WriteError> {
        push_context(out, &request.context)?;
        Parameters::write(&request.parameters, layout, out)?;
        Vec::<Batch>::write(&request.commitments, layout, out)
    }
}

impl Flat for PointClaims {
    type Value = PointClaims;

    ghost form = { point_claims };

    ghost IsWhole = { IsPointClaims };

    fn read(
        alloc: Global,
        layout: Layout,
        reader: &mut Reader<'_>,
    ) -> Result<PointClaims, ReadError> {
        let point = reader.numbers(alloc, layout, layout.degree)?;
        let columns = reader.word()? as usize;
        Ok(PointClaims {
            point,
            values: reader.elements(alloc, layout, columns)?,
        })
    }

    fn write(claims: &PointClaims, layout: Layout, out: &mut Vec<u8>) -> Result<(), WriteError> {
        push_element(out, layout, &claims.point)?;
        push_count(out, claims.values.len())?;
        push_elements(out, layout, &claims.values)
    }
}

impl Flat for MatrixClaims {
    type Value = MatrixClaims;

    ghost form = { matrix_claims };

    ghost IsWhole = { IsMatrixClaims };

    fn read(
        alloc: Global,
        layout: Layout,
        reader: &mut Reader<'_>,
    ) -> Result<MatrixClaims, ReadError> {
        let shift = reader.number(layout)?;
        let log_size = reader.word()? as usize;
        Ok(MatrixClaims {
            domain: Domain { shift, log_size },
            points: Vec::<PointClaims>::read(alloc, layout, reader)?,
        })
    }

    fn write(claims: &MatrixClaims, layout: Layout, out: &mut Vec<u8>) -> Result<(), WriteError> {
        push_number(out, layout, claims.domain.shift)?;
        push_count(out, claims.domain.log_size)?;
        Vec::<PointClaims>::write(&claims.points, layout, out)
    }
}

impl Flat for BatchClaims {
    type Value = BatchClaims;

    ghost form = { batch_claims };

    ghost IsWhole = { IsBatchClaims };

    fn read(
        alloc: Global,
        layout: Layout,
        reader: &mut Reader<'_>,
    ) -> Result<BatchClaims, ReadError> {
        Ok(BatchClaims {
            commitment: reader.digest(alloc)?,
            matrices: Vec::<MatrixClaims>::read(alloc, layout, reader)?,
        })
    }

    fn write(claims: &BatchClaims, layout: Layout, out: &mut Vec<u8>) -> Result<(), WriteError> {
        push_digest(out, &claims.commitment)?;
        Vec::<MatrixClaims>::write(&claims.matrices, layout, out)
    }
}
