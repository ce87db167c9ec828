//! Requests over each field and by each scheme, committed to, opened and verified. What is expected
//! is what a program of its own answers.

use fri_requests::{
    Batch, Domain, HidingScheme, MadeScheme, Masking, Matrix, Parameters, PlainScheme, Request,
    SchemeField, commit, open, verify,
};
use fri_schemes::Coset;
use hex::encode;
use p3_baby_bear::BabyBear;
use p3_field_core::ExtensionField;
use p3_goldilocks::Goldilocks;
use p3_koala_bear::KoalaBear;
use std::alloc::Global;

/// Few queries, and every proof of work that there is but the rounds'.
const PARAMETERS: Parameters = Parameters {
    log_blowup: 1,
    log_final_poly_len: 0,
    max_log_arity: 2,
    num_queries: 3,
    batch_proof_of_work_bits: 1,
    commit_proof_of_work_bits: 0,
    query_proof_of_work_bits: 2,
};

/// What comes of a request.
struct Answer {
    /// The commitment's hex text.
    commitment: &'static str,
    /// The first value at the first point.
    value: &'static [u64],
    /// What both sides draw next.
    next: &'static [u64],
}

/// Over BabyBear, by the plain scheme.
static BABY_BEAR: Answer = Answer {
    commitment: "4a87be86052c2cfc45be5740526d5db7065f62b21942c0a63092d98a40267336",
    value: &[513702780, 1860951398, 154603667, 1674855364],
    next: &[1169773635, 114723485, 904749214, 204473974],
};

/// And by the one that hides.
static HIDING_BABY_BEAR: Answer = Answer {
    commitment: "53f40ee369abdad714194f369d7385fd947e8a8c08a03a1b2c2866a7f089702f",
    value: &[1840304031, 984664336, 1694941436, 1396205933],
    next: &[479618019, 83631317, 229783527, 1834884123],
};

/// Over KoalaBear.
static KOALA_BEAR: Answer = Answer {
    commitment: "980c7ef8278cd0d95dd67884ea92d4596528d13f44f9ddbfce4df7fd4a4815d8",
    value: &[1896516601, 1465732481, 788392600, 1549777073],
    next: &[1491238425, 1192604330, 1462004208, 1099096394],
};

/// And by the scheme that hides.
static HIDING_KOALA_BEAR: Answer = Answer {
    commitment: "81c26d7863fae8730578fd04547e6dc051cac32f0fff5405d3593237cde4453f",
    value: &[1679709728, 98321790, 79376154, 742061756],
    next: &[1608783385, 1907438876, 1986088436, 1367150467],
};

/// Over Goldilocks.
static GOLDILOCKS: Answer = Answer {
    commitment: "9d2dc27407dd453ae18f6fb4023dc490a8a11d0fab9daba207ce8f0dd85c1593",
    value: &[5512125291346117774, 13789410785643490533],
    next: &[16356053327234554537, 1908397808331802078],
};

/// And by the scheme that hides.
static HIDING_GOLDILOCKS: Answer = Answer {
    commitment: "53ff740891ce6da2738cbcf35252f2e7b103870e10e92424d8cc4f2d11b027fa",
    value: &[15478999504308209317, 11249018057502669339],
    next: &[15990526363923356800, 16599252895787598916],
};

/// Two points of so many coefficients each.
fn points(alloc: Global, degree: usize) -> Option<Vec<Vec<u64>>> {
    let mut points = Vec::with_capacity(alloc, 2).ok()?;
    for numbers in [[5, 1, 0, 0], [9, 3, 2, 1]] {
        points
            .push(Vec::from_slice(alloc, numbers.get(..degree)?).ok()?)
            .ok()?;
    }
    Some(points)
}

/// A request to open a matrix of two columns, whose values are the numbers from 1 on.
fn request(alloc: Global, degree: usize) -> Option<Request> {
    let mut values = Vec::with_capacity(alloc, 128).ok()?;
    for value in 1..129 {
        values.push(value).ok()?;
    }
    let matrix = Matrix {
        domain: Domain {
            shift: 1,
            log_size: 6,
        },
        width: 2,
        values,
        points: points(alloc, degree)?,
    };
    let batch = Batch {
        matrices: vec![in alloc; matrix].ok()?,
        preprocessed: false,
    };
    Some(Request {
        context: String::new(alloc),
        parameters: PARAMETERS,
        commitments: vec![in alloc; batch].ok()?,
    })
}

/// Whether a request over this field and by this scheme has this answer, which is verified.
fn is_answered<F: SchemeField, P: MadeScheme<F, F::Extension, Coset<F>>>(
    alloc: Global,
    answer: &Answer,
) -> Option<bool> {
    let degree = <F::Extension as ExtensionField<F>>::DIMENSION;
    let masking = Masking {
        num_random_codewords: degree,
        seed: [7; 32],
    };
    let request = request(alloc, degree)?;
    let commitments = commit::<F, P>(alloc, &request, masking).ok()?;
    let text = encode(alloc, commitments.first()?.as_slice()).ok()?;
    let opening = open::<F, P>(alloc, &request, masking).ok()?;
    let claims = opening.claims.first()?;
    let values = &claims.matrices.first()?.points.first()?.values;
    let next = verify::<F, P>(
        alloc,
        "",
        &PARAMETERS,
        degree,
        None,
        &opening.claims,
        &opening.proof,
    )
    .ok()?;
    let is_listed = text.as_str() == answer.commitment
        && claims.commitment.as_str() == answer.commitment
        && values.first()?.as_slice() == answer.value;
    Some(
        is_listed
            && opening.next_challenge.as_slice() == answer.next
            && next.as_slice() == answer.next,
    )
}

#[test]
fn requests_over_each_field_are_answered(rt: HostRuntime) {
    let alloc = rt.alloc();
    assert!(rt; is_answered::<BabyBear, PlainScheme<BabyBear>>(alloc, &BABY_BEAR) == Some(true));
    assert!(rt;
        is_answered::<BabyBear, HidingScheme<BabyBear>>(alloc, &HIDING_BABY_BEAR) == Some(true)
    );
    assert!(rt; is_answered::<KoalaBear, PlainScheme<KoalaBear>>(alloc, &KOALA_BEAR) == Some(true));
    assert!(rt;
        is_answered::<KoalaBear, HidingScheme<KoalaBear>>(alloc, &HIDING_KOALA_BEAR) == Some(true)
    );
    assert!(rt;
        is_answered::<Goldilocks, PlainScheme<Goldilocks>>(alloc, &GOLDILOCKS) == Some(true)
    );
    assert!(rt;
        is_answered::<Goldilocks, HidingScheme<Goldilocks>>(alloc, &HIDING_GOLDILOCKS) == Some(true)
    );
}
