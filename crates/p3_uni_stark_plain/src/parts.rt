//! The parts of a STARK's proof, and their plain forms.

ghost use Rattle.std.specs.Prelude.{◌≡◌, ◌≢◌, map, IfOk, IfErr, IfSome, option_map};
ghost use Rattle.std.specs.List.{Any};
ghost use Rattle.algebra.specs.Nested.{lists, nested};
ghost use Rattle.p3_fri_plain.specs.Faults.{DigestFault};
ghost use Rattle.p3_fri_plain.specs.declared.error.PlainProofError.TheVariants.{OutOfMemory};
ghost use Rattle.p3_uni_stark_plain.specs.Parts.{CommitmentsFault, OpenedFault, ElementFault};
ghost use Rattle.p3_uni_stark_plain.specs.Parts.{element_numbers};
ghost use Rattle.p3_uni_stark_plain.specs.Parts.{commitments_seen, commitments_listed};
ghost use Rattle.p3_uni_stark_plain.specs.Parts.{opened_seen, opened_listed, opened_numbers};

use crate::forms::{PlainCommitments, PlainOpenedValues};
use p3_baby_bear::{BabyBear, BabyBear4};
use p3_fri_plain::{Each, ExtensionElement, Plain, PlainProofError};
use p3_uni_stark_verifier::{Commitments, OpenedValues};
use std::alloc::{AllocError, Global};

/// Elements of the extension.
type Values = Each<ExtensionElement<BabyBear, BabyBear4>>;

/// The elements of this form.
fn values_of(alloc: Global, form: &Vec<Vec<u64>>) -> Result<Vec<BabyBear4>, PlainProofError>
    ensures ok { IfOk result (λ xs. map element_numbers xs.items ≡ lists form.now.items) }
    ensures err { IfErr result (λ e. e ≢ OutOfMemory
        → Any (ElementFault e) (lists form.now.items)) }
{
    Values::from_plain(alloc, form)
}

/// The lists of elements of this form.
fn chunks_of(
    alloc: Global,
    form: &Vec<Vec<Vec<u64>>>,
) -> Result<Vec<Vec<BabyBear4>>, PlainProofError>
    ensures ok { IfOk result (λ chunks. map (map element_numbers) (lists chunks.items)
        ≡ nested form.now.items) }
    ensures err { IfErr result (λ e. e ≢ OutOfMemory
        → Any (Any (ElementFault e)) (nested form.now.items)) }
{
    Each::<Values>::from_plain(alloc, form)
}

/// The digest of this form.
fn digest_of(alloc: Global, form: &Vec<u8>) -> Result<[u8; 32], PlainProofError>
    ensures ok { IfOk result (λ digest. digest ≡ form.now.items) }
    ensures err { IfErr result (λ e. e ≢ OutOfMemory → DigestFault e form.now.items) }
{
    <[u8; 32]>::from_plain(alloc, form)
}

/// The digest of this form, if there is one.
fn digest_if(alloc: Global, form: &Option<Vec<u8>>) -> Result<Option<[u8; 32]>, PlainProofError>
    ensures ok { IfOk result (λ found. found ≡ option_map (λ bytes. bytes.items) form.now) }
    ensures err { IfErr result (λ e. e ≢ OutOfMemory
        → IfSome form.now (λ bytes. DigestFault e bytes.items)) }
{
    match form {
        Some(bytes) => match digest_of(alloc, bytes) {
            Ok(digest) => Ok(Some(digest)),
            Err(fault) => Err(fault),
        },
        None => Ok(None),
    }
}

/// The commitments of this form.
pub(crate) fn commitments_of(
    alloc: Global,
    form: &PlainCommitments,
) -> Result<Commitments<[u8; 32]>, PlainProofError>
    ensures ok { IfOk result (λ c. commitments_seen c ≡ commitments_listed form.now) }
    ensures err { IfErr result (λ e. e ≢ OutOfMemory
        → CommitmentsFault e (commitments_listed form.now)) }
{
    let trace = match digest_of(alloc, &form.trace) {
        Ok(digest) => digest,
        Err(fault) => return Err(fault),
    };
    let quotient_chunks = match digest_of(alloc, &form.quotient_chunks) {
        Ok(digest) => digest,
        Err(fault) => return Err(fault),
    };
    let random = match digest_if(alloc, &form.random) {
        Ok(found) => found,
        Err(fault) => return Err(fault),
    };
    Ok(Commitments {
        trace,
        quotient_chunks,
        random,
    })
}

/// The opened values of this form.
pub(crate) fn opened_of(
    alloc: Global,
    form: &PlainOpenedValues,
) -> Result<OpenedValues<BabyBear4>, PlainProofError>
    ensures ok { IfOk result (λ opened.
        opened_numbers (opened_seen opened) ≡ opened_listed form.now) }
    ensures err { IfErr result (λ e. e ≢ OutOfMemory → OpenedFault e (opened_listed form.now)) }
{
    let trace_local = match values_of(alloc, &form.trace_local) {
        Ok(values) => values,
        Err(fault) => return Err(fault),
    };
    let trace_next = match values_of(alloc, &form.trace_next) {
        Ok(values) => values,
        Err(fault) => return Err(fault),
    };
    let preprocessed_local = match values_of(alloc, &form.preprocessed_local) {
        Ok(values) => values,
        Err(fault) => return Err(fault),
    };
    let preprocessed_next = match values_of(alloc, &form.preprocessed_next) {
        Ok(values) => values,
        Err(fault) => return Err(fault),
    };
    let quotient_chunks = match chunks_of(alloc, &form.quotient_chunks) {
        Ok(chunks) => chunks,
        Err(fault) => return Err(fault),
    };
    let random = match values_of(alloc, &form.random) {
        Ok(values) => values,
        Err(fault) => return Err(fault),
    };
    Ok(OpenedValues {
        trace_local,
        trace_next,
        preprocessed_local,
        preprocessed_next,
        quotient_chunks,
        random,
    })
}

/// The form of a digest that there may be.
fn plain_digest_if(alloc: Global, digest: Option<[u8; 32]>) -> Result<Option<Vec<u8>>, AllocError>
    ensures { IfOk result (λ form. option_map (λ bytes. bytes.items) form ≡ digest) }
{
    match digest {
        Some(bytes) => Ok(Some(Vec::from_slice(alloc, &bytes)?)),
        None => Ok(None),
    }
}

/// The form of commitments.
pub(crate) fn plain_commitments(
    alloc: Global,
    commitments: &Commitments<[u8; 32]>,
) -> Result<PlainCommitments, AllocError>
    ensures { IfOk result (λ form.
        commitments_listed form ≡ commitments_seen commitments.now) }
{
    Ok(PlainCommitments {
        trace: Vec::from_slice(alloc, &commitments.trace)?,
        quotient_chunks: Vec::from_slice(alloc, &commitments.quotient_chunks)?,
        random: plain_digest_if(alloc, commitments.random)?,
    })
}

/// The form of elements.
fn plain_values(alloc: Global, values: &Vec<BabyBear4>) -> Result<Vec<Vec<u64>>, AllocError>
    ensures { IfOk result (λ form.
        lists form.items ≡ map element_numbers values.now.items) }
{
    Values::to_plain(alloc, values)
}

/// The form of lists of elements.
fn plain_chunks(
    alloc: Global,
    chunks: &Vec<Vec<BabyBear4>>,
) -> Result<Vec<Vec<Vec<u64>>>, AllocError>
    ensures { IfOk result (λ form. nested form.items
        ≡ map (map element_numbers) (lists chunks.now.items)) }
{
    Each::<Values>::to_plain(alloc, chunks)
}

/// The form of opened values.
pub(crate) fn plain_opened(
    alloc: Global,
    opened: &OpenedValues<BabyBear4>,
) -> Result<PlainOpenedValues, AllocError>
    ensures { IfOk result (λ form.
        opened_listed form ≡ opened_numbers (opened_seen opened.now)) }
{
    Ok(PlainOpenedValues {
        trace_local: plain_values(alloc, &opened.trace_local)?,
        trace_next: plain_values(alloc, &opened.trace_next)?,
        preprocessed_local: plain_values(alloc, &opened.preprocessed_local)?,
        preprocessed_next: plain_values(alloc, &opened.preprocessed_next)?,
        quotient_chunks: plain_chunks(alloc, &opened.quotient_chunks)?,
        random: plain_values(alloc, &opened.random)?,
    })
}
