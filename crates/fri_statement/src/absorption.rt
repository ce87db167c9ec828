//! The absorption of a statement.

ghost use Rattle.std.specs.Prelude.{◌≡◌, ◌++◌, map, IfOk, OnOk, OnErr};
ghost use Rattle.std.specs.List.{flat_map};
ghost use Rattle.p3_challenger_fs.specs.Pattern.{pattern_steps};
ghost use Rattle.p3_challenger_fs.specs.Separator.{description};
ghost use Rattle.p3_fri_relation.specs.Views.{parameters_of};
ghost use Rattle.fri_statement.specs.Statement.{matrix_label, commitment_labels, statement_steps};
ghost use Rattle.fri_statement.specs.Statement.{statement_description, statement_absorbed};
ghost use Rattle.fri_statement.specs.Stated.{opened_matrix, opened_commitment, statement_of};

use crate::labels::{commitment_label, matrix_label, parameters_label};
use crate::stated::{StatedCommitment, StatedMatrix};
use crate::stated_field::StatedField;
use p3_challenger_fs::{DomainSeparator, Hierarchy, Interaction, InteractionPattern, Kind, Script};
use p3_challenger_sha256::{Sha256Challenger, Sha256Field};
use p3_field::{ExtensionField, PrimeField64, TwoAdicField, TwoAdicMultiplicativeCoset};
use p3_fri_folding::FriParameters;
use std::alloc::{AllocError, Global};

/// The version of a statement's transcript.
const VERSION: u8 = 1;

/// Its name.
const NAME: &[u8] = b"p3-fri-statement";

/// The bracket in which the opening runs.
const OPENING: &str = "opening";

/// Adds a label for each matrix.
fn push_matrices<F: TwoAdicField + PrimeField64, EF: ExtensionField<F>>(
    separator: &mut DomainSeparator,
    alloc: Global,
    matrices: &[StatedMatrix<EF, TwoAdicMultiplicativeCoset<F>>],
) -> Result<(), AllocError>
    ensures { OnOk result (description separator.new ≡ record (description separator.old) {
      labels = (description separator.old).labels ++ map matrix_label (map (opened_matrix
          ⟦<EF as StatedField<F>>⟧.prime_fields (λ d. d.shift) (λ d. d.log_size)) matrices.now);
    }) }
{
    for matrix in matrices {
        let label = matrix_label::<F, EF>(alloc, matrix)?;
        separator.instance(alloc, &label)?;
    }
    Ok(())
}

/// Adds the labels of each commitment.
fn push_commitments<F: TwoAdicField + PrimeField64, EF: ExtensionField<F>>(
    separator: &mut DomainSeparator,
    alloc: Global,
    commitments: &[StatedCommitment<EF, TwoAdicMultiplicativeCoset<F>>],
) -> Result<(), AllocError>
    ensures { OnOk result (description separator.new ≡ record (description separator.old) {
      labels = (description separator.old).labels ++ flat_map commitment_labels
          (map (opened_commitment ⟦<EF as StatedField<F>>⟧.prime_fields (λ d. d.shift)
          (λ d. d.log_size)) commitments.now);
    }) }
{
    for commitment in commitments {
        let count = commitment.matrices.len();
        let label = commitment_label(alloc, &commitment.commitment, count)?;
        separator.instance(alloc, &label)?;
        push_matrices::<F, EF>(separator, alloc, &commitment.matrices)?;
    }
    Ok(())
}

/// The bracket in which the opening runs, the only step.
fn opening_pattern(alloc: Global) -> Result<InteractionPattern, AllocError>
    ensures { IfOk result (λ pattern. pattern_steps pattern ≡ statement_steps) }
{
    let mut steps = Vec::with_capacity(alloc, 2)?;
    steps.push(Interaction::marker(Hierarchy::Begin, Kind::Protocol, OPENING))?;
    steps.push(Interaction::marker(Hierarchy::End, Kind::Protocol, OPENING))?;
    Ok(InteractionPattern::new(steps))
}

/// What describes a statement.
fn separator_of<F: TwoAdicField + PrimeField64, EF: ExtensionField<F>, M>(
    alloc: Global,
    context: &[u8],
    params: &FriParameters<M>,
    commitments: &[StatedCommitment<EF, TwoAdicMultiplicativeCoset<F>>],
) -> Result<DomainSeparator, AllocError>
    ensures { IfOk result (λ separator. description separator ≡ statement_description
        (statement_of ⟦<EF as StatedField<F>>⟧.prime_fields (λ d. d.shift) (λ d. d.log_size)
        context.now (parameters_of params.now) commitments.now)) }
{
    let pattern = opening_pattern(alloc)?;
    let mut separator = DomainSeparator::new(alloc, VERSION, NAME, pattern);
    separator.instance(alloc, context)?;
    let label = parameters_label(alloc, params)?;
    separator.instance(alloc, &label)?;
    push_commitments::<F, EF>(&mut separator, alloc, commitments)?;
    Ok(separator)
}

/// Absorbs a statement, byte by byte of its stream: a context of any length, which is whatever else
/// the application binds its proof to, the parameters, and of each commitment its digest and the
/// domain, the width and the points of each of its matrices. A prover does so before it opens, a
/// verifier before it verifies. The stream names no field: each side knows its own.
///
/// # Errors
///
/// Memory may be refused; then nothing was absorbed.
pub fn absorb_statement<F: Sha256Field + TwoAdicField, EF: ExtensionField<F>, M>(
    alloc: Global,
    challenger: &mut Sha256Challenger<F>,
    context: &[u8],
    params: &FriParameters<M>,
    commitments: &[StatedCommitment<EF, TwoAdicMultiplicativeCoset<F>>],
) -> Result<(), AllocError>
    ensures absorbed { OnOk result (challenger.new ≡ statement_absorbed F.ORDER_U64 F.canonical
        F.ops challenger.old (statement_of ⟦<EF as StatedField<F>>⟧.prime_fields (λ d. d.shift)
        (λ d. d.log_size) context.now (parameters_of params.now) commitments.now)) }
    ensures unchanged { OnErr result (challenger.new ≡ challenger.old) }
{
    let separator = separator_of::<F, EF, M>(alloc, context, params, commitments)?;
    let seed = separator.seed(alloc)?;
    let _script = Script::start::<F, Sha256Challenger<F>>(challenger, seed);
    Ok(())
}
