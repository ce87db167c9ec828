//! Challenges by the public transcripts.

use crate::scheme::{Claims, Proof, Setting, parameters};
use p3_challenger::Sha256Challenger;
use p3_field::{BabyBear, BabyBear4};
use p3_fri_folding::is_strictly_falling;
use p3_fri_pcs_transcript::pcs_transcript::{PcsShape, ReplayedPcs, replay_pcs};
use p3_fri_transcript::transcript::{FriMessages, FriShape};
use std::alloc::Global;
use std::process::Abort;

/// What the transcripts draw along an opening of matrices of these log heights, which fall
/// strictly, and the challenger in which they end, if they aren't refused.
pub(crate) fn replay(
    rt: &impl Abort,
    alloc: Global,
    setting: Setting,
    log_heights: &[usize],
    proof: &Proof,
    claims: &Claims,
) -> Option<(ReplayedPcs<BabyBear4>, Sha256Challenger)> {
    let parameters = parameters(setting);
    assert!(rt;
        setting.log_final_poly_len <= 31 && parameters.max_log_arity > 0,
        "not conditions of a schedule"
    );
    assert!(rt;
        is_strictly_falling(log_heights) && !log_heights.is_empty() && log_heights[0] <= 63,
        "not log heights"
    );
    let test = FriShape::new(alloc, &parameters, log_heights, log_heights[0]);
    let test = test.expect(rt, "memory");
    let shape = PcsShape::from_claims(alloc, &parameters, claims).expect(rt, "memory");
    let messages = FriMessages::<BabyBear, BabyBear4, [u8; 32]> {
        commitments: &proof.commit_phase_commits,
        commit_witnesses: &proof.commit_pow_witnesses,
        final_poly: &proof.final_poly,
        query_witness: Some(proof.query_pow_witness),
    };
    let mut challenger = Sha256Challenger::new();
    let replayed = replay_pcs(
        alloc,
        &mut challenger,
        shape,
        claims,
        Some(proof.batch_pow_witness),
        test,
        messages,
    );
    match replayed {
        Ok(drawn) => Some((drawn, challenger)),
        Err(_) => None,
    }
}
