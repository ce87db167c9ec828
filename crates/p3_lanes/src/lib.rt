//! Arithmetic modulo 2013265921, the order of BabyBear, on eight numbers at a time, each in a lane
//! of 64 bits.
#![tactic(auto)]

ghost use Rattle.std.specs.Prelude.{◌≡◌, ◌<◌, ◌+◌, ◌-◌, ◌*◌, ◌/◌, ◌%◌, ◌^◌, ℕ, map};
ghost use Rattle.std.specs.Simd.Lanes.{zip2, Each1};

mod halves;

pub use crate::halves::{HalfSums, add_halves, no_halves, reduced_halves};
use std::simd::prelude::*;

/// The order.
const P: u64 = 2_013_265_921;

/// `2^62` over the order, rounded down.
const INVERSE: u64 = 2_290_649_223;

/// `2^32` modulo the order.
const HIGH_HALF: u64 = 268_435_454;

/// `11 * 2^32` modulo the order.
const ELEVEN_HIGH_HALVES: u64 = 939_524_073;

/// The same numbers, of which the compiler then knows that they have 32 bits, so that a product of
/// two takes one instruction.
fn low_halves(numbers: u64x8) -> u64x8
    requires { Each1 (λ n. n < 4294967296) numbers }
    ensures { result ≡ numbers }
{
    numbers.cast::<u32>().cast::<u64>()
}

/// The products of numbers of 32 bits with a factor.
fn scaled(numbers: u64x8, factor: u64) -> u64x8
    requires numbers { Each1 (λ n. n < 4294967296) numbers }
    requires factor { factor < 4294967296 }
    ensures { result ≡ map (λ n. n * factor) numbers }
{
    low_halves(numbers).strict_mul(u64x8::splat(factor))
}

/// The quotients by `2^bits`.
fn shifted(numbers: u64x8, bits: u64) -> u64x8
    requires { bits < 64 }
    ensures { result ≡ map (λ n. n / 2 ^ bits) numbers }
{
    numbers >> u64x8::splat(bits)
}

/// The sums of numbers below the order, modulo the order.
pub fn sums(a: u64x8, b: u64x8) -> u64x8
    requires a { Each1 (λ n. n < 2013265921) a }
    requires b { Each1 (λ n. n < 2013265921) b }
    ensures { result ≡ zip2 (λ x y. (x + y) % 2013265921) a b }
{
    reduced_once(a.strict_add(b))
}

/// The differences of numbers below the order, modulo the order.
pub fn differences(a: u64x8, b: u64x8) -> u64x8
    requires a { Each1 (λ n. n < 2013265921) a }
    requires b { Each1 (λ n. n < 2013265921) b }
    ensures { result ≡ zip2 (λ x y. (x + (2013265921 - y)) % 2013265921) a b }
{
    reduced_once(a.strict_add(u64x8::splat(P).strict_sub(b)))
}

/// The opposites of numbers below the order, modulo the order.
pub fn opposites(numbers: u64x8) -> u64x8
    requires { Each1 (λ n. n < 2013265921) numbers }
    ensures { result ≡ map (λ n. (2013265921 - n) % 2013265921) numbers }
{
    reduced_once(u64x8::splat(P).strict_sub(numbers))
}

/// The products of numbers below the order.
pub fn products(a: u64x8, b: u64x8) -> u64x8
    requires a { Each1 (λ n. n < 2013265921) a }
    requires b { Each1 (λ n. n < 2013265921) b }
    ensures { result ≡ zip2 (λ x y. x * y) a b }
{
    low_halves(a).strict_mul(low_halves(b))
}

/// What numbers below twice the order leave modulo the order.
pub fn reduced_once(numbers: u64x8) -> u64x8
    requires { Each1 (λ n. n < 4026531842) numbers }
    ensures { result ≡ map (λ n. n % 2013265921) numbers }
{
    // A minimum of 32 bits takes one instruction. A difference below 0 wraps, and is then the
    // greater of the two.
    let numbers = numbers.cast::<u32>();
    let wrapped = numbers - u32x8::splat(P as u32);
    numbers.simd_min(wrapped).cast::<u64>()
}

/// What numbers below `2^62` leave modulo the order: the quotient, estimated by the order's
/// inverse, is at most one too small.
pub fn reduced(numbers: u64x8) -> u64x8
    requires { Each1 (λ n. n < 4611686018427387904) numbers }
    ensures { result ≡ map (λ n. n % 2013265921) numbers }
{
    let quotient = shifted(scaled(shifted(numbers, 30), INVERSE), 32);
    reduced_once(numbers.strict_sub(scaled(quotient, P)))
}

/// The low halves of 32 bits.
fn low_parts(numbers: u64x8) -> u64x8
    ensures { result ≡ map (λ n. n % 4294967296) numbers }
{
    numbers % u64x8::splat(4_294_967_296)
}

/// What numbers of 64 bits leave modulo the order.
pub fn reduced_sum(numbers: u64x8) -> u64x8
    requires { Each1 (λ n. n < 18446744073709551616) numbers }
    ensures { result ≡ map (λ n. n % 2013265921) numbers }
{
    let high = scaled(shifted(numbers, 32), HIGH_HALF);
    reduced(high.strict_add(low_parts(numbers)))
}

/// Numbers that leave as much as 11 times sums of up to three products of numbers below the order,
/// and are no greater than one such product.
pub fn eleven_times(sums: u64x8) -> u64x8
    requires { Each1 (λ n. n < 12159718993900339201) sums }
    ensures value { map (λ n. n % 2013265921) result ≡ map (λ n. 11 * n % 2013265921) sums }
    ensures small { Each1 (λ n. n < 4053239664633446401) result }
{
    let high = scaled(shifted(sums, 32), ELEVEN_HIGH_HALVES);
    high.strict_add(scaled(low_parts(sums), 11))
}
