//! Openings by both schemes where a proof of work has no solution.

ghost use Rattle.std.specs.Prelude.{◌∷◌, []};
ghost use Rattle.p3_fri_hiding_tests.specs.Fits.{Fits};

use crate::asked::{Question, hold};
use crate::lists::one;
use crate::matrices::{POINT, SHORT_PI_COLUMN, element, evaluation};
use crate::scheme::Domain;
use p3_field::{BabyBear, BabyBear4};
use p3_fri_folding::{FriProverError, PowPhase};
use p3_fri_masks::HidingFriProverError;
use p3_pcs::Pcs;
use p3_test_challengers::AlwaysOne;
use p3_test_openings::one::{commit_one, open_one};
use std::alloc::Global;
use std::process::Abort;

/// Why a column that is committed to, beside a domain of so many times as many points, isn't opened
/// at a point, and what that leaves of its data.
pub(crate) fn commit_and_open<P: Pcs<BabyBear4, AlwaysOne, Val = BabyBear, Domain = Domain> + Drop>(
    rt: &impl Abort,
    mut scheme: P,
    alloc: Global,
    factor: usize,
) -> (Option<P::ProverError>, P::ProverData)
    requires prover { (P.rules scheme).InProverRange }
    requires committable { (e : _) → Fits factor e.0.log_size e.1
        → (P.rules scheme).CanCommit (e ∷ []) }
{
    let column = evaluation(rt, alloc, &SHORT_PI_COLUMN, factor);
    let points = one(rt, alloc, element(POINT));
    let committed = commit_one::<BabyBear4, AlwaysOne, P>(&mut scheme, alloc, column);
    let (known, mut held) = match committed {
        Ok(pair) => pair,
        Err(_) => rt.panic("the commitment is refused"),
    };
    match open_one(&scheme, alloc, known, &mut held, points, &mut AlwaysOne {}) {
        Ok(answer) => (answer.err(), held),
        Err(_) => rt.panic("memory"),
    }
}

/// Whether both schemes name the work that has no solution as the reason, or none.
pub(crate) fn is_named(
    work: Option<PowPhase>,
    hiding: Option<HidingFriProverError>,
    plain: Option<FriProverError>,
) -> bool {
    match work {
        Some(phase) => {
            let unsolved = FriProverError::NoPowWitness { phase };
            (plain == Some(unsolved)) & (hiding == Some(HidingFriProverError::Fri(unsolved)))
        }
        None => plain.is_none() & hiding.is_none(),
    }
}

/// Each proof of work in turn, and none.
static QUESTIONS: [Question; 4] = [
    Question::IsWorkNamed(None),
    Question::IsWorkNamed(Some(PowPhase::Batch)),
    Question::IsWorkNamed(Some(PowPhase::CommitPhase)),
    Question::IsWorkNamed(Some(PowPhase::Query)),
];

#[test]
fn work_without_a_solution_is_named_by_its_phase(rt: HostRuntime) {
    hold(&rt, rt.alloc(), &QUESTIONS);
}
