//! What is asked of matrices that a prover keeps: which they are, and where they are to be opened.

ghost use Rattle.std.specs.Prelude.{◌≡◌, ◌↔◌, IsTrue, IfOk, IfErr, map, false};
ghost use Rattle.algebra.specs.Nested.{nested};
ghost use Rattle.p3_challenger_sha256.specs.Sha256.{start};
ghost use Rattle.p3_matrix.specs.Matrix.{matrix_width};
ghost use Rattle.p3_mmcs.specs.ProverData.{matrices_of};
ghost use Rattle.p3_pcs.specs.Claims.{zip_with};
ghost use Rattle.fri_records.specs.Failures.{IfMalformed};
ghost use Rattle.fri_records.specs.Records.{parameters_in};
ghost use Rattle.fri_verification.specs.Bound.{IsContext, batch_asked, bound_by, context_listed};
ghost use Rattle.fri_numbers.specs.Listed.{domain_by, domain_committed};
ghost use Rattle.fri_numbers.specs.Numbers.{AreCoefficients};
ghost use Rattle.fri_commitments.specs.Read.{ArePointsBy};
ghost use Rattle.fri_commitments.specs.Requests.{AllMatrices};
ghost use Rattle.fri_numbers.specs.Shapes.{HasPointsBy};

use crate::committed::Committed;
use crate::reading::points_of;
use fri_numbers::Numbered;
use fri_records::{Batch, Matrix, Parameters, ReadError};
use fri_schemes::Coset;
use fri_verification::{batches_stated, bound_challenger, context_of};
use p3_challenger_sha256::{Sha256Challenger, Sha256Field};
use p3_field::{ElementBytes, ExtensionField, TwoAdicField};
use p3_matrix::RowMajorMatrix;
use p3_mmcs::{Mmcs, Sha256Mmcs, Sha256ProverData};
use p3_pcs::KnownCommitment;
use std::alloc::Global;

/// The matrices under one commitment, with the tree over them.
pub type Data<F> = Sha256ProverData<F>;

/// Whether records name these domains.
fn name_domains<EF: Copy, D: Copy, N: Numbered<EF, D>>(domains: &[D], matrices: &[Matrix]) -> bool
    ensures { IsTrue result
        ↔ (map (λ d. domain_by (N.shift_of d) (N.log_size_of d)) domains.now
        ≡ map (λ m. domain_committed false m.domain) matrices.now) }
{
    if domains.len() != matrices.len() {
        return false;
    }
    for (index, matrix) in matrices.iter().enumerate() {
        let kept = N::domain_numbers(domains[index]);
        if matrix.domain.shift != kept.shift {
            return false;
        }
        if matrix.domain.log_size != kept.log_size {
            return false;
        }
    }
    true
}

/// Whether batches name the domains under these commitments.
fn name_known<EF: Copy, D: Copy, N: Numbered<EF, D>>(
    known: &[KnownCommitment<[u8; 32], D>],
    asked: &[Batch],
) -> bool
    ensures { IsTrue result
        ↔ (map (λ k. map (λ d. domain_by (N.shift_of d) (N.log_size_of d)) k.domains.items)
        known.now
        ≡ map (λ b. map (λ m. domain_committed false m.domain) b.matrices.items) asked.now) }
{
    if known.len() != asked.len() {
        return false;
    }
    for (index, batch) in asked.iter().enumerate() {
        if !name_domains::<EF, D, N>(&known[index].domains, &batch.matrices) {
            return false;
        }
    }
    true
}

/// Whether records name the widths of these matrices.
fn name_widths<V: Copy>(kept: &[RowMajorMatrix<V>], matrices: &[Matrix]) -> bool
    ensures { IsTrue result
        ↔ (map (λ k. matrix_width k) kept.now ≡ map (λ m. m.width) matrices.now) }
{
    if kept.len() != matrices.len() {
        return false;
    }
    for (index, matrix) in matrices.iter().enumerate() {
        let width = kept[index].width();
        if matrix.width != width {
            return false;
        }
    }
    true
}

/// Whether a record names the widths of a datum's matrices.
fn name_datum<V: ElementBytes>(datum: &Sha256ProverData<V>, batch: &Batch) -> bool
    ensures { IsTrue result ↔ (map (λ k. matrix_width k) (matrices_of datum.now)
        ≡ map (λ m. m.width) batch.now.matrices.items) }
{
    let inputs: Sha256Mmcs<V> = Sha256Mmcs::new();
    name_widths(inputs.get_matrices(datum), &batch.matrices)
}

/// Whether batches name the widths of what is kept.
fn name_kept<V: ElementBytes, D>(all: &[Committed<Sha256ProverData<V>, D>], asked: &[Batch]) -> bool
    ensures { IsTrue result
        ↔ (map (λ c. map (λ k. matrix_width k) (matrices_of c.data)) all.now
        ≡ map (λ b. map (λ m. m.width) b.matrices.items) asked.now) }
{
    if all.len() != asked.len() {
        return false;
    }
    for (index, batch) in asked.iter().enumerate() {
        let committed = &all[index];
        if !name_datum::<V>(&committed.data, batch) {
            return false;
        }
    }
    true
}

/// Whether batches name the domains and the widths of what is kept, of which this is known.
pub fn are_named<EF: Copy, D: Copy, N: Numbered<EF, D>, V: ElementBytes>(
    known: &[KnownCommitment<[u8; 32], D>],
    all: &[Committed<Sha256ProverData<V>, D>],
    asked: &[Batch],
) -> bool
    ensures domains { IsTrue result
        → map (λ k. map (λ d. domain_by (N.shift_of d) (N.log_size_of d)) k.domains.items)
        known.now
        ≡ map (λ b. map (λ m. domain_committed false m.domain) b.matrices.items) asked.now }
    ensures widths { IsTrue result
        → map (λ c. map (λ k. matrix_width k) (matrices_of c.data)) all.now
        ≡ map (λ b. map (λ m. m.width) b.matrices.items) asked.now }
    ensures otherwise { map (λ k. map (λ d. domain_by (N.shift_of d) (N.log_size_of d))
        k.domains.items) known.now
        ≡ map (λ b. map (λ m. domain_committed false m.domain) b.matrices.items) asked.now
        → map (λ c. map (λ k. matrix_width k) (matrices_of c.data)) all.now
        ≡ map (λ b. map (λ m. m.width) b.matrices.items) asked.now
        → IsTrue result }
{
    name_known::<EF, D, N>(known, asked) && name_kept::<V, D>(all, asked)
}

/// The points at which what is known is to be opened, and the challenger once it has absorbed the
/// statement of that under this context, a hex text.
pub fn read_asked<F: Sha256Field + TwoAdicField, EF: ExtensionField<F>>(
    alloc: Global,
    parameters: &Parameters,
    known: &[KnownCommitment<[u8; 32], Coset<F>>],
    context: &str,
    asked: &[Batch],
) -> Result<(Vec<Vec<Vec<EF>>>, Sha256Challenger<F>), ReadError>
    requires domains { map (λ k. map (λ d. domain_by (F.canonical d.shift) d.log_size)
        k.domains.items) known.now
        ≡ map (λ b. map (λ m. domain_committed false m.domain) b.matrices.items) asked.now }
    ensures points { IfOk result (λ read. ArePointsBy (λ x. map F.canonical (EF.coefficients x))
        (nested read.0.items) asked.now) }
    ensures state { IfOk result (λ read. read.1
        ≡ bound_by F.ORDER_U64 F.canonical F.ops start (context_listed context.now)
        (parameters_in parameters.now)
        (zip_with (batch_asked false) (map (λ k. k.commitment) known.now) asked.now)) }
    ensures context { IfOk result (λ _. IsContext context.now) }
    ensures refused { IfErr result (IfMalformed
        (¬ (IsContext context.now × AllMatrices
        (HasPointsBy (AreCoefficients F.ORDER_U64 EF.DIMENSION)) asked.now))) }
{
    let points = points_of::<EF, Coset<F>, F>(alloc, asked)?;
    let bytes = context_of(alloc, context)?;
    let stated = batches_stated::<EF, Coset<F>, F>(alloc, false, known, &points, asked)?;
    let begun = Sha256Challenger::over_field();
    let challenger = bound_challenger(alloc, begun, &bytes, parameters, &stated)?;
    Ok((points, challenger))
}
