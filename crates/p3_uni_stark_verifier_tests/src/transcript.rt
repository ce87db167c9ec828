//! Both challenges and the state after them, against values by a program apart.

use crate::made::{Parts, parts_of};
use crate::numbers::extension;
use crate::shown::{CUBES, FIBONACCI, HIDDEN_CUBES, Shown};
use p3_challenger::{CanObserve, FieldChallenger, Sha256Challenger};
use p3_field::{BabyBear, BabyBear4, ExtensionField, PrimeField64};
use p3_uni_stark_transcript::{StarkCommitments, StarkInstance, replay_stark};
use std::alloc::Global;
use std::process::Abort;

/// Both challenges, and the element that is drawn after them.
#[derive(Clone, Copy)]
struct Drawn {
    alpha: [u64; 4],
    zeta: [u64; 4],
    next: [u64; 4],
}

/// Of Fibonacci numbers.
const OF_FIBONACCI: Drawn = Drawn {
    alpha: [1193773153, 566542126, 1804134561, 57158626],
    zeta: [1401355611, 1916737294, 1341283323, 593743146],
    next: [1351926337, 1621539053, 282530991, 24189843],
};

/// Of cubes.
const OF_CUBES: Drawn = Drawn {
    alpha: [80829925, 221156580, 358409969, 885225814],
    zeta: [142755723, 1921034161, 1881258460, 1456883318],
    next: [193663443, 2006107046, 286015406, 687363211],
};

/// Of cubes by a scheme that hides.
const OF_HIDDEN_CUBES: Drawn = Drawn {
    alpha: [1094320272, 1605375, 443440455, 2007383226],
    zeta: [1024949981, 1290986893, 1463186652, 800268588],
    next: [1814151340, 1079498010, 1726296485, 1965930360],
};

/// Whether these are drawn of the parts' statement and commitments.
fn are_drawn<F: PrimeField64, EF: ExtensionField<F>, C: FieldChallenger<F> + CanObserve<[u8; 32]>>(
    rt: &impl Abort,
    alloc: Global,
    challenger: &mut C,
    parts: &Parts<F, EF>,
    drawn: &Drawn,
) -> bool {
    let instance = StarkInstance {
        air: &parts.air,
        public_values: &parts.public_values,
        periodic: &parts.periodic,
        log_height: parts.proof.log_height,
    };
    let commitments = StarkCommitments {
        preprocessed: match parts.preprocessed {
            Some(key) => Some(key.commitment),
            None => None,
        },
        trace: parts.proof.commitments.trace,
        quotient: parts.proof.commitments.quotient_chunks,
        random: parts.proof.commitments.random,
    };
    let found = replay_stark::<F, EF, [u8; 32], C>(
        alloc,
        challenger,
        &instance,
        commitments,
    ).expect(rt, "memory");
    let next = challenger.sample_algebra_element::<EF>();
    found.alpha == extension::<F, EF>(drawn.alpha)
        && found.zeta == extension::<F, EF>(drawn.zeta)
        && next == extension::<F, EF>(drawn.next)
}

/// What is shown, and what is drawn of it over BabyBear and by SHA-256.
static CASES: [(&str, Shown, Drawn); 3] = [
    ("Fibonacci numbers", FIBONACCI, OF_FIBONACCI),
    ("cubes", CUBES, OF_CUBES),
    ("hidden cubes", HIDDEN_CUBES, OF_HIDDEN_CUBES),
];

#[test]
fn challenges_are_drawn(rt: HostRuntime) {
    for (name, shown, drawn) in &CASES {
        let parts = parts_of::<BabyBear, BabyBear4>(&rt, rt.alloc(), shown);
        let mut challenger = Sha256Challenger::new();
        let right = are_drawn(&rt, rt.alloc(), &mut challenger, &parts, drawn);
        assert!(rt; right, "{name}");
    }
}
