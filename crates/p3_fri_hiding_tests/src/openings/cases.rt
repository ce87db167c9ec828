//! Cases of openings: what is committed to, and what comes of each opening of it in turn.

use crate::commitments::commit_to;
use crate::lists::push;
use crate::matrices::{POINT, cosets};
use crate::openable::are_openable;
use crate::openings::changes::{Change, change_claims, change_random};
use crate::openings::requests::{Batches, Opening, requests_of};
use crate::openings::shapes::{ANY, Counts, First, are_opened_so};
use crate::scheme::{Data, Domain, SMALL, Setting, VerifierError};
use crate::tested::Tested;
use p3_challenger::Sha256Challenger;
use p3_fri_masks::HidingFriProverError;
use p3_pcs::KnownCommitment;
use p3_test_openings::one::{Opened, with_claims};
use std::alloc::Global;
use std::process::Abort;

/// The call that a verifier answers.
pub(crate) enum Call {
    Verify,
    /// With preprocessing, which has this index.
    VerifyWithPreprocessing(Option<usize>),
}

/// An opening of each matrix at these points.
pub(crate) struct Asked {
    pub points: &'static [[u64; 4]],
    /// Why it is refused, if it is.
    pub refusal: Option<HidingFriProverError>,
    /// Whether the data of each commitment counts as opened then.
    pub is_opened: &'static [bool],
    /// How many values are opened, and how many random ones beside the proof.
    pub values: &'static [Counts],
    pub random: &'static [Counts],
    /// The first value of each matrix at each point.
    pub firsts: &'static [First],
    /// What is changed before a verifier is asked.
    pub change: Change,
    /// Its numbers, its call, and what it answers: `accepted` or the refusal.
    pub verifier: Setting,
    pub call: Call,
    pub answer: &'static str,
}

/// A private column opened at one point, and accepted.
pub(crate) const ACCEPTED: Asked = Asked {
    points: &[POINT],
    refusal: None,
    is_opened: &[true],
    values: &[[1, 1, 1]],
    random: &[[1, 1, 4]],
    firsts: &[ANY],
    change: Change::Nothing,
    verifier: SMALL,
    call: Call::Verify,
    answer: "accepted",
};

/// Whether both sides end in one state that isn't the first.
pub(crate) fn are_moved(prover: &Sha256Challenger, verifier: &Sha256Challenger) -> bool {
    (*verifier == *prover) & (*prover != Sha256Challenger::new())
}

/// Whether the verifier's answer is as it is said. It ends as the prover where it accepts, and else
/// leaves its challenger as it was.
fn is_as_said(
    rt: &impl Abort,
    alloc: Global,
    answer: Result<(), VerifierError>,
    said: &str,
    prover: &Sha256Challenger,
    verifier: &Sha256Challenger,
) -> bool {
    let Err(refusal) = answer else {
        return (said == "accepted") & are_moved(prover, verifier);
    };
    let text = format!(in alloc; "{refusal:?}").expect(rt, "memory");
    (text.as_str() == said) & (*verifier == Sha256Challenger::new())
}

/// Whether the values of an opening are those that are wanted, and the verifier answers so to it
/// once it is changed.
fn is_answered<P: Tested>(
    rt: &impl Abort,
    alloc: Global,
    asked: &Asked,
    opened: Opening<P>,
    prover: &Sha256Challenger,
    verifier: &mut Sha256Challenger,
) -> bool {
    let Opened {
        values,
        mut proof,
        mut claims,
    } = opened;
    let setting = asked.verifier;
    if setting.log_final_poly_len > 31 {
        rt.panic("a final polynomial too long");
    }
    let random = P::random_values(&mut proof);
    let has_random_values = are_opened_so(&*random, asked.random, &[]);
    change_random(random, &asked.change);
    change_claims(alloc, &mut claims, &asked.change);
    let scheme = P::of(setting);
    let answer = match asked.call {
        Call::Verify => scheme.verify(alloc, claims, &proof, verifier),
        Call::VerifyWithPreprocessing(index) => {
            scheme.verify_with_preprocessing(alloc, claims, &proof, verifier, index)
        }
    };
    let is_as_said = is_as_said(rt, alloc, answer, asked.answer, prover, verifier);
    is_as_said & has_random_values & are_opened_so(&values, asked.values, asked.firsts)
}

/// Whether the data of each commitment counts as opened so.
fn are_opened(data: &[Data], wanted: &[bool]) -> bool {
    let mut are_opened = data.len() == wanted.len();
    for index in 0..data.len() {
        are_opened &= wanted.get(index) == Some(&data[index].is_opened());
    }
    are_opened
}

/// Whether an opening of batches, and the verifier's answer to it, are as they are wanted. One that
/// is refused leaves the challenger as it was.
fn is_met<P: Tested>(
    rt: &impl Abort,
    scheme: &P,
    alloc: Global,
    batches: &Batches,
    known: &[KnownCommitment<[u8; 32], Domain>],
    data: &mut [Data],
    asked: &Asked,
    prover: &mut Sha256Challenger,
    verifier: &mut Sha256Challenger,
) -> bool
    requires { P.IsOf batches.now.setting scheme.now }
{
    let mut requests = requests_of(rt, alloc, data, batches.each, asked.points);
    let setting = batches.setting;
    let codewords = setting.num_random_codewords;
    if setting.num_queries == 0 || !are_openable(&requests, codewords, batches.is_preprocessed) {
        rt.panic("this can't be opened");
    }
    let answer = if batches.is_preprocessed {
        scheme.open_with_preprocessing(alloc, requests.as_mut_slice(), &mut *prover, Some(0))
    } else {
        scheme.open(alloc, requests.as_mut_slice(), &mut *prover)
    };
    match with_claims(alloc, known, &requests, answer) {
        Ok(Ok(opened)) => {
            is_answered::<P>(rt, alloc, asked, opened, &*prover, verifier) & asked.refusal.is_none()
        }
        Ok(Err(refusal)) => {
            (asked.refusal == Some(refusal)) & (*prover == Sha256Challenger::new())
        }
        Err(_) => rt.panic("memory"),
    }
}

/// Whether each opening of batches in turn is met, by challengers that are new before the first,
/// and the data of each commitment counts as opened as it is said then.
pub(crate) fn are_met<P: Tested>(
    rt: &impl Abort,
    alloc: Global,
    batches: &Batches,
    openings: &[Asked],
) -> bool {
    let setting = batches.setting;
    let mut scheme = P::of(setting);
    let mut known = Vec::new(alloc);
    let mut data = Vec::new(alloc);
    for batch in batches.each {
        let committed = commit_to(rt, &mut scheme, alloc, setting, &batch.kind);
        let (commitment, held) = committed.expect(rt, "the commitment is refused");
        let of_batch = KnownCommitment {
            commitment,
            domains: cosets(rt, alloc, batch.domains),
        };
        push(rt, &mut known, of_batch);
        push(rt, &mut data, held);
    }
    let mut prover = Sha256Challenger::new();
    let mut verifier = Sha256Challenger::new();
    let mut are_met = true;
    for asked in openings {
        are_met &= is_met(
            rt,
            &scheme,
            alloc,
            batches,
            &known,
            data.as_mut_slice(),
            asked,
            &mut prover,
            &mut verifier,
        );
        are_met &= are_opened(&data, asked.is_opened);
    }
    are_met
}
