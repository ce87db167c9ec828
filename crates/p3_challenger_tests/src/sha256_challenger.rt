//! Worked values, computed with the hashlib module of Python's standard library from the rules of
//! the format, and each call at a concrete type through its bound. A state is seen by the number
//! that it answers next.

ghost use Rattle.std.specs.Prelude.{◌≡◌, ◌<◌, ◌≤◌, ◌++◌, ◌∷◌, [], List, map};
ghost use Rattle.p3_challenger.specs.Run.{Event, run};
ghost use Rattle.p3_challenger.specs.Run.Event.{ValueObserved, CommitmentObserved, ElementDrawn};
ghost use Rattle.p3_challenger.specs.Run.Event.{BitsDrawn};
ghost use Rattle.p3_challenger.specs.Run.Drawn.{Element, Bits};

use p3_challenger::laws::{run_law, sha256_challenger_law};
use p3_challenger::{
    CanObserve, CanSample, CanSampleBits, FieldChallenger, GrindingChallenger, Plays,
    Sha256Challenger,
};
use p3_field::{BabyBear, BabyBear4, ExtensionField, Field, PrimeField64};
use std::process::Abort;

/// Observes the values and the commitment, and draws an element of an extension and a number of
/// `bits` bits.
fn draws_after<F: Field, EF: ExtensionField<F>, Com: Copy, C>(
    challenger: &mut C,
    values: &[F],
    commitment: Com,
    bits: usize,
) -> (EF, usize)
where
    C: FieldChallenger<F> + GrindingChallenger<Witness = F> + CanObserve<Com>,
    requires { bits ≤ C.MAX_SAMPLE_BITS }
    ensures values { (run ⟦<C as Plays<F, EF, Com>>⟧.moves challenger.old
        (map ValueObserved values.now
        ++ CommitmentObserved commitment ∷ ElementDrawn ∷ BitsDrawn bits ∷ [])).value
        ≡ Element result.0 ∷ Bits result.1 ∷ [] }
    ensures state { (run ⟦<C as Plays<F, EF, Com>>⟧.moves challenger.old
        (map ValueObserved values.now
        ++ CommitmentObserved commitment ∷ ElementDrawn ∷ BitsDrawn bits ∷ [])).state
        ≡ challenger.new }
{
    challenger.observe_slice(values);
    challenger.observe(commitment);
    let drawn = challenger.sample_algebra_element();
    let index = challenger.sample_bits(bits);
    (drawn, index)
}

/// Whether a search for a witness on one copy leaves the state that checking what it found leaves
/// on another.
fn leaves_what_its_check_leaves<C>(rt: &impl Abort, challenger: &C, bits: usize) -> bool
where
    C: GrindingChallenger + Clone + Eq + Drop,
    requires { bits ≤ C.MAX_SAMPLE_BITS }
{
    let mut searched = challenger.clone().expect(rt, "memory");
    let mut checked = challenger.clone().expect(rt, "memory");
    let witness = searched.grind(bits).expect(rt, "no witness");
    checked.check_witness(bits, witness) && searched == checked
}

/// A challenger that has absorbed the element 5.
fn after_five() -> Sha256Challenger {
    let mut challenger = Sha256Challenger::new();
    challenger.observe(BabyBear::from_u64(5));
    challenger
}

/// The bytes 0, 1, .., 31.
fn counted_bytes() -> [u8; 32] {
    let mut bytes = [0; 32];
    for i in 0..32 {
        bytes[i] = i as u8;
    }
    bytes
}

/// The element with the coefficients 1, 2, 3, 4.
fn one_to_four() -> BabyBear4 {
    BabyBear4::from_coefficients(&[1, 2, 3, 4].map(BabyBear::from_u64))
}

/// The canonical numbers of an element's coefficients.
fn canonical_numbers(element: BabyBear4) -> [u64; 4] {
    let mut numbers = [0; 4];
    for index in 0..4 {
        let coefficient: BabyBear = element.coefficient(index);
        numbers[index] = coefficient.as_canonical_u64();
    }
    numbers
}

/// What `draws_after` draws, and the challenger that it leaves.
fn drawn_through_bounds() -> ((BabyBear4, usize), Sha256Challenger) {
    let mut challenger = Sha256Challenger::new();
    let values = [BabyBear::from_u64(5)];
    let drawn = draws_after(&mut challenger, &values, counted_bytes(), 10);
    (drawn, challenger)
}

/// The same by calls at concrete types.
fn drawn_by_calls() -> ((BabyBear4, usize), Sha256Challenger) {
    let mut challenger = after_five();
    challenger.observe(counted_bytes());
    let element = challenger.sample_algebra_element();
    let index = challenger.sample_bits(10);
    ((element, index), challenger)
}

#[test]
fn three_observations_and_two_draws(rt: HostRuntime) {
    let mut challenger = after_five();
    challenger.observe(counted_bytes());
    challenger.observe(BabyBear::from_u64(2_013_265_918));
    let drawn: BabyBear = challenger.sample();
    let (few, many) = (challenger.sample_bits(10), challenger.sample_bits(63));
    assert!(rt; drawn.as_canonical_u64() == 471_829_860);
    assert!(rt; few == 213);
    assert!(rt; many == 533_366_119_835_272_224);
}

#[test]
fn extension_elements_are_four_coefficients(rt: HostRuntime) {
    let mut challenger = Sha256Challenger::new();
    challenger.observe(one_to_four());
    let drawn = canonical_numbers(challenger.sample());
    let (none, many) = (challenger.sample_bits(0), challenger.sample_bits(63));
    assert!(rt; drawn == [518_917_033, 651_677_193, 600_749_567, 860_355_198]);
    assert!(rt; none == 0);
    assert!(rt; many == 6_190_373_925_916_898_611);
}

#[test]
fn calls_through_bounds(rt: HostRuntime) {
    let mut single = Sha256Challenger::new();
    single.observe_algebra_slice(&[one_to_four()]);
    assert!(rt; single.sample_bits(63) == 1_332_151_426_949_748_124);
    assert!(rt; drawn_by_calls() == drawn_through_bounds());
    run_law::<Sha256Challenger, BabyBear, BabyBear4, [u8; 32]>();
    sha256_challenger_law();
}

#[test]
fn grinds(rt: HostRuntime) {
    let challenger = after_five();
    assert!(rt; leaves_what_its_check_leaves(&rt, &challenger, 3));
    assert!(rt; leaves_what_its_check_leaves(&rt, &challenger, 8));
}

#[test]
fn no_bits_leave_the_challenger(rt: HostRuntime) {
    let mut challenger = after_five();
    let found = challenger.grind(0);
    assert!(rt; found == Some(BabyBear::ZERO));
    assert!(rt; challenger.check_witness(0, BabyBear::TWO));
    assert!(rt; challenger == after_five());
}

#[test]
fn finds_the_first_witness(rt: HostRuntime) {
    let mut challenger = after_five();
    let found = challenger.grind(3);
    assert!(rt; found == Some(BabyBear::from_u64(12)));
    assert!(rt; challenger.sample_bits(63) == 2_362_401_643_754_315_182);
    assert!(rt; !after_five().check_witness(3, BabyBear::from_u64(11)));
}
