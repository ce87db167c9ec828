//! The bytes of a description, worked out by hand from the rule, and both sides of a transcript of
//! every kind of step, whose draws were computed with the hashlib module of Python's standard
//! library from the rules of the formats.

ghost use Rattle.std.specs.Prelude.{◌≡◌, ◌∷◌, [], map};
ghost use Rattle.p3_challenger.specs.pattern.Hierarchy.TheVariants.{Atomic, Begin, End};
ghost use Rattle.p3_challenger.specs.pattern.Kind.TheVariants.{Message, Challenge, Pow, Protocol};
ghost use Rattle.p3_challenger.specs.pattern.TypeTag.TheVariants.{Opaque, Algebra, Bits, Marker};
ghost use Rattle.p3_challenger.specs.pattern.Length.TheVariants.{Scalar, Fixed};
ghost use Rattle.p3_challenger.specs.Driver.{steps_left};
ghost use Rattle.p3_challenger.specs.Pattern.{turn_of};
ghost use Rattle.p3_challenger.specs.Separator.{description};

use p3_challenger::fs::{
    DomainSeparator, Hierarchy, Interaction, InteractionPattern, Kind, Length, ProverState,
    TranscriptState, VerifierState,
};
use p3_challenger::laws::seed_stream_law;
use p3_challenger::{CanObserve, Sha256Challenger};
use p3_field::{BabyBear, BabyBear4, ExtensionField, Field, PrimeField64};
use std::alloc::Global;
use std::process::Abort;

/// The stream of the example, part by part.
static STREAM: [u8; 221] = [
    // the version
    0x02,
    // the name
    0x00, 0x00, 0x00, 0x00, 0x00, 0x00, 0x00, 0x04, 0x64, 0x65, 0x6d, 0x6f,
    // the number of steps
    0x00, 0x00, 0x00, 0x00, 0x00, 0x00, 0x00, 0x07,
    // atomic, message, opaque
    0x00, 0x00, 0x00,
    // `root`
    0x00, 0x00, 0x00, 0x00, 0x00, 0x00, 0x00, 0x04, 0x72, 0x6f, 0x6f, 0x74,
    // scalar
    0x00,
    // atomic, message, algebra of degree 4
    0x00, 0x00, 0x01, 0x00, 0x00, 0x00, 0x00, 0x00, 0x00, 0x00, 0x04,
    // `values`
    0x00, 0x00, 0x00, 0x00, 0x00, 0x00, 0x00, 0x06, 0x76, 0x61, 0x6c, 0x75, 0x65, 0x73,
    // 2 values
    0x01, 0x00, 0x00, 0x00, 0x00, 0x00, 0x00, 0x00, 0x02,
    // atomic, proof of work, algebra of degree 1
    0x00, 0x02, 0x01, 0x00, 0x00, 0x00, 0x00, 0x00, 0x00, 0x00, 0x01,
    // `work`
    0x00, 0x00, 0x00, 0x00, 0x00, 0x00, 0x00, 0x04, 0x77, 0x6f, 0x72, 0x6b,
    // 3 bits
    0x01, 0x00, 0x00, 0x00, 0x00, 0x00, 0x00, 0x00, 0x03,
    // atomic, challenge, algebra of degree 4
    0x00, 0x01, 0x01, 0x00, 0x00, 0x00, 0x00, 0x00, 0x00, 0x00, 0x04,
    // `beta`
    0x00, 0x00, 0x00, 0x00, 0x00, 0x00, 0x00, 0x04, 0x62, 0x65, 0x74, 0x61,
    // scalar
    0x00,
    // atomic, challenge, bits of width 5
    0x00, 0x01, 0x02, 0x00, 0x00, 0x00, 0x00, 0x00, 0x00, 0x00, 0x05,
    // `rows`
    0x00, 0x00, 0x00, 0x00, 0x00, 0x00, 0x00, 0x04, 0x72, 0x6f, 0x77, 0x73,
    // 2 values
    0x01, 0x00, 0x00, 0x00, 0x00, 0x00, 0x00, 0x00, 0x02,
    // begin, protocol, marker
    0x01, 0x03, 0x03,
    // `inner`
    0x00, 0x00, 0x00, 0x00, 0x00, 0x00, 0x00, 0x05, 0x69, 0x6e, 0x6e, 0x65, 0x72,
    // scalar
    0x00,
    // end, protocol, marker
    0x02, 0x03, 0x03,
    // `inner`
    0x00, 0x00, 0x00, 0x00, 0x00, 0x00, 0x00, 0x05, 0x69, 0x6e, 0x6e, 0x65, 0x72,
    // scalar
    0x00,
    // the number of labels
    0x00, 0x00, 0x00, 0x00, 0x00, 0x00, 0x00, 0x02,
    // the first label
    0x00, 0x00, 0x00, 0x00, 0x00, 0x00, 0x00, 0x03, 0x01, 0x02, 0x03,
    // the second label
    0x00, 0x00, 0x00, 0x00, 0x00, 0x00, 0x00, 0x01, 0x04,
];

/// A commitment that is sent.
const ROOT: [u8; 32] = [7; 32];

/// A separator of these steps.
#[derive(Drop)]
struct Example {
    separator: DomainSeparator,
    ghost turns: { map turn_of (description separator).steps ≡
        record { hierarchy = Atomic; kind = Message; type_tag = Opaque; length = Scalar }
        ∷ record { hierarchy = Atomic; kind = Message; type_tag = Algebra 4; length = Fixed 2 }
        ∷ record { hierarchy = Atomic; kind = Pow; type_tag = Algebra 1; length = Fixed 3 }
        ∷ record { hierarchy = Atomic; kind = Challenge; type_tag = Algebra 4; length = Scalar }
        ∷ record { hierarchy = Atomic; kind = Challenge; type_tag = Bits 5; length = Fixed 2 }
        ∷ record { hierarchy = Begin; kind = Protocol; type_tag = Marker; length = Scalar }
        ∷ record { hierarchy = End; kind = Protocol; type_tag = Marker; length = Scalar }
        ∷ [] },
}

/// What one side draws, with the witness that it found or was sent. The rows are `None` where they
/// aren't two.
#[derive(Clone, Copy, PartialEq, Eq)]
struct Played {
    witness: BabyBear,
    beta: BabyBear4,
    rows: Option<(usize, usize)>,
}

/// The separator of the stream above.
fn make_example(rt: &impl Abort, alloc: Global) -> Example {
    let root = Interaction::opaque(Hierarchy::Atomic, Kind::Message, "root", Length::Scalar);
    let values = Interaction::algebra::<BabyBear, BabyBear4>(
        Hierarchy::Atomic,
        Kind::Message,
        "values",
        Length::Fixed(2),
    );
    let work = Interaction::algebra::<BabyBear, BabyBear>(
        Hierarchy::Atomic,
        Kind::Pow,
        "work",
        Length::Fixed(3),
    );
    let beta = Interaction::algebra::<BabyBear, BabyBear4>(
        Hierarchy::Atomic,
        Kind::Challenge,
        "beta",
        Length::Scalar,
    );
    let rows = Interaction::bits(
        Hierarchy::Atomic,
        Kind::Challenge,
        "rows",
        5,
        Length::Fixed(2),
    );
    let begin = Interaction::marker(Hierarchy::Begin, Kind::Protocol, "inner");
    let end = Interaction::marker(Hierarchy::End, Kind::Protocol, "inner");
    let steps = vec![in alloc; root, values, work, beta, rows, begin, end].expect(rt, "memory");
    let mut separator = DomainSeparator::new(alloc, 2, b"demo", InteractionPattern::new(steps));
    separator.instance(alloc, &[1, 2, 3]).expect(rt, "memory");
    separator.instance(alloc, &[4]).expect(rt, "memory");
    Example { separator }
}

/// A challenger that has observed each byte of the stream.
fn stream_observed() -> Sha256Challenger {
    let mut challenger = Sha256Challenger::new();
    for byte in &STREAM {
        challenger.observe(BabyBear::from_u64(u64::from(*byte)));
    }
    challenger
}

/// The values that are sent.
fn values() -> [BabyBear4; 2] {
    [BabyBear4::TWO, BabyBear4::GENERATOR]
}

/// The two rows, where there are two.
fn pair(rows: &[usize]) -> Option<(usize, usize)> {
    match rows {
        [first, second] => Some((*first, *second)),
        _ => None,
    }
}

/// The steps of either side after the proof of work.
fn play_last<Side>(
    rt: &impl Abort,
    alloc: Global,
    mut transcript: TranscriptState<'_, Side, Sha256Challenger, BabyBear>,
    witness: BabyBear,
) -> Played
    requires { steps_left transcript ≡
        record { hierarchy = Atomic; kind = Challenge; type_tag = Algebra 4; length = Scalar }
        ∷ record { hierarchy = Atomic; kind = Challenge; type_tag = Bits 5; length = Fixed 2 }
        ∷ record { hierarchy = Begin; kind = Protocol; type_tag = Marker; length = Scalar }
        ∷ record { hierarchy = End; kind = Protocol; type_tag = Marker; length = Scalar }
        ∷ [] }
{
    let beta: BabyBear4 = transcript.challenge_extension();
    let rows = transcript.challenge_bits(alloc, 5, 2).expect(rt, "memory");
    transcript.begin_protocol();
    transcript.end_protocol();
    transcript.finalize();
    Played {
        witness,
        beta,
        rows: pair(&rows),
    }
}

/// The prover's side.
fn prove(
    rt: &impl Abort,
    alloc: Global,
    challenger: &mut Sha256Challenger,
    example: &Example,
) -> Played {
    let transcript = ProverState::new(alloc, challenger, &example.separator);
    let mut transcript = transcript.expect(rt, "memory");
    transcript.observe_opaque(ROOT);
    transcript.observe_extensions(&values());
    let witness = transcript.observe_pow(3).expect(rt, "no witness");
    play_last(rt, alloc, transcript, witness)
}

/// The verifier's side, `None` where the witness doesn't pass.
fn verify(
    rt: &impl Abort,
    alloc: Global,
    challenger: &mut Sha256Challenger,
    example: &Example,
    witness: BabyBear,
) -> Option<Played> {
    let transcript = VerifierState::new(alloc, challenger, &example.separator);
    let mut transcript = transcript.expect(rt, "memory");
    transcript.observe_opaque(ROOT);
    transcript.observe_extensions(&values());
    if transcript.observe_pow(3, witness) {
        Some(play_last(rt, alloc, transcript, witness))
    } else {
        transcript.abort();
        None
    }
}

/// Whether a challenger has observed the stream of this example where `new` succeeds, and nothing
/// where its memory is refused.
fn absorbs_if_new(alloc: Global, example: &Example) -> bool {
    let mut challenger = Sha256Challenger::new();
    match VerifierState::<Sha256Challenger, BabyBear>::new(
        alloc,
        &mut challenger,
        &example.separator,
    ) {
        Ok(transcript) => {
            transcript.abort();
            challenger == stream_observed()
        },
        Err(_) => challenger == Sha256Challenger::new(),
    }
}

#[test]
fn bytes_of_a_description(rt: HostRuntime) {
    let example = make_example(&rt, rt.alloc());
    let stream = example
        .separator
        .seed_stream(rt.alloc())
        .expect(&rt, "memory");
    assert!(rt; stream.as_slice() == STREAM.as_slice());
    seed_stream_law();
}

#[test]
fn both_sides_draw_the_same(rt: HostRuntime) {
    let example = make_example(&rt, rt.alloc());
    let mut first = Sha256Challenger::new();
    let mut second = Sha256Challenger::new();
    let proved = prove(&rt, rt.alloc(), &mut first, &example);
    let verified = verify(&rt, rt.alloc(), &mut second, &example, proved.witness);
    let last: BabyBear = proved.beta.coefficient(3);
    assert!(rt; proved.witness == BabyBear::from_u64(3));
    assert!(rt; last.as_canonical_u64() == 352_189_782);
    assert!(rt; proved.rows == Some((31, 30)));
    assert!(rt; verified == Some(proved) && first == second);
}

#[test]
fn wrong_witness_is_false(rt: HostRuntime) {
    let example = make_example(&rt, rt.alloc());
    let mut challenger = Sha256Challenger::new();
    let found = verify(&rt, rt.alloc(), &mut challenger, &example, BabyBear::TWO);
    assert!(rt; found.is_none());
}

#[test]
fn abort_leaves_the_challenger(rt: HostRuntime) {
    let example = make_example(&rt, rt.alloc());
    let seed = example.separator.seed(rt.alloc()).expect(&rt, "memory");
    let mut challenger = Sha256Challenger::new();
    ProverState::<Sha256Challenger, BabyBear>::start(&mut challenger, seed).abort();
    assert!(rt; challenger == stream_observed());
}

/// `new` is refused where one of its allocations is made to fail, as by `rt try --test
/// --fail-alloc N`.
#[test]
fn refused_new_absorbs_nothing(rt: HostRuntime) {
    let example = make_example(&rt, rt.alloc());
    assert!(rt; absorbs_if_new(rt.alloc(), &example));
}
