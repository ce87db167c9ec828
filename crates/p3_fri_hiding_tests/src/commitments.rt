//! Whatever a scheme commits to.

use crate::committable::{chunks, words};
use crate::kind::Kind;
use crate::lists::two;
use crate::matrices::{cosets, evaluations};
use crate::scheme::{Data, Setting};
use crate::tested::Tested;
use p3_fri_masks::HidingFriProverError;
use std::alloc::Global;
use std::process::Abort;

/// A commitment and its data, or why there is none.
type Commitment = Result<([u8; 32], Data), HidingFriProverError>;

/// Commits so, by a scheme of that setting: the matrices of a trace stand beside domains of twice
/// as many points.
pub(crate) fn commit_to<P: Tested>(
    rt: &impl Abort,
    scheme: &mut P,
    alloc: Global,
    setting: Setting,
    kind: &Kind,
) -> Commitment
    requires { P.IsOf setting scheme.old }
    ensures { P.Keeps scheme.old scheme.new }
{
    match kind {
        Kind::Private(each) => {
            let private = evaluations(rt, alloc, *each, 2);
            scheme.commit(alloc, private)
        },
        Kind::Preprocessed(each) => {
            let public = evaluations(rt, alloc, *each, 2);
            scheme.commit_preprocessing(alloc, public)
        },
        Kind::Ldes(each) => {
            let words = words(rt, alloc, *each);
            scheme.commit_ldes(alloc, words)
        },
        Kind::Chunks(each) => {
            let (first, second) = chunks(rt, alloc, *each);
            let chunks = two(rt, alloc, first, second);
            match scheme.get_quotient_ldes(alloc, chunks, 2) {
                Ok(words) => {
                    let committed = scheme.commit_ldes(alloc, words);
                    Ok(committed.expect(rt, "the words are refused"))
                }
                Err(refusal) => Err(refusal),
            }
        },
        Kind::Random(each) => {
            let domains = cosets(rt, alloc, *each);
            match scheme.get_opt_randomization_poly_commitment(alloc, domains) {
                Ok(committed) => Ok(committed.expect(rt, "the scheme doesn't hide")),
                Err(refusal) => Err(refusal),
            }
        }
    }
}
