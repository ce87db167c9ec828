//! Elements and domains of their numbers.

ghost use Rattle.std.specs.Prelude.{◌≡◌, ◌↔◌, ◌≤◌, ◌<◌, ℕ, List, map, length, vec_len};
ghost use Rattle.std.specs.Prelude.{IsSome, IfSome, IfOk, IfErr, All};
ghost use Rattle.fri_numbers.specs.Numbers.{AreCoefficients};
ghost use Rattle.fri_records.specs.Failures.{IfMalformed};
ghost use Rattle.fri_numbers.specs.Numbers.{IsCosetBelow};

use fri_records::{Domain, Fault, Misfit, Place, ReadError};
use p3_field::{ExtensionField, Field, PrimeField64, TwoAdicField, TwoAdicMultiplicativeCoset};
use std::alloc::{AllocError, Global};

/// The element of this canonical number.
fn element<F: PrimeField64>(number: u64) -> Option<F>
    ensures some { IsSome result ↔ (number < F.ORDER_U64) }
    ensures number { IfSome result (λ x. F.canonical x ≡ number) }
{
    if number < F::ORDER_U64 {
        Some(F::from_canonical(number))
    } else {
        None
    }
}

/// The elements of these canonical numbers, at this place.
pub(crate) fn elements<F: PrimeField64>(
    alloc: Global,
    numbers: &[u64],
    place: Place,
) -> Result<Vec<F>, ReadError>
    ensures numbers { IfOk result (λ v. map F.canonical v.items ≡ numbers.now) }
    ensures count { IfOk result (λ v. vec_len v ≡ length numbers.now) }
    ensures refused { IfErr result (IfMalformed
        (¬ All (λ number. number < F.ORDER_U64) numbers.now)) }
{
    let mut values = Vec::with_capacity(alloc, numbers.len())?;
    for (index, number) in numbers.iter().enumerate() {
        let Some(value) = element(*number) else {
            let place = Place {
                value: Some(index),
                ..place
            };
            return Err(place.lacks(Fault::Element).into());
        };
        values.push(value)?;
    }
    Ok(values)
}

/// The coefficient of this canonical number, of an element at this place.
fn coefficient<F: PrimeField64>(number: u64, place: Place) -> Result<F, Misfit>
    ensures number { IfOk result (λ x. F.canonical x ≡ number) }
    ensures refused { IfErr result (λ _. ¬ (number < F.ORDER_U64)) }
{
    match element(number) {
        Some(value) => Ok(value),
        None => Err(place.lacks(Fault::Element)),
    }
}

/// The element of the extension with these coefficients, at this place.
fn extension_element<F: PrimeField64, EF: ExtensionField<F>>(
    numbers: &[u64],
    place: Place,
) -> Result<EF, Misfit>
    ensures numbers { IfOk result (λ x. map F.canonical (EF.coefficients x) ≡ numbers.now) }
    ensures refused { IfErr result (λ _.
        ¬ AreCoefficients F.ORDER_U64 EF.DIMENSION numbers.now) }
{
    if numbers.len() != EF::DIMENSION {
        return Err(place.lacks(Fault::ExtensionElement));
    }
    let mut element = EF::ZERO;
    for (index, number) in numbers.iter().enumerate() {
        let value: F = coefficient(*number, place)?;
        element = element.with_coefficient(index, value);
    }
    Ok(element)
}

/// The coefficients' numbers of an element of the extension, that of one first.
pub fn coefficients<F: PrimeField64, EF: ExtensionField<F>>(
    alloc: Global,
    element: EF,
) -> Result<Vec<u64>, AllocError>
    ensures { IfOk result (λ v. v.items ≡ map F.canonical (EF.coefficients element)) }
{
    let degree = EF::DIMENSION;
    let mut numbers = Vec::with_capacity(alloc, degree)?;
    for index in 0..degree {
        let value: F = element.coefficient(index);
        numbers.push(value.as_canonical_u64())?;
    }
    Ok(numbers)
}

/// The coset of a domain, of at most `2^most` points.
pub(crate) fn coset<F: PrimeField64 + TwoAdicField>(
    domain: &Domain,
    most: usize,
    place: Place,
) -> Result<TwoAdicMultiplicativeCoset<F>, Misfit>
    requires most { most ≤ F.TWO_ADICITY }
    ensures size { IfOk result (λ c. c.log_size ≡ domain.now.log_size) }
    ensures room { IfOk result (λ c. c.log_size ≤ most) }
    ensures shift { IfOk result (λ c. F.canonical c.shift ≡ domain.now.shift) }
    ensures well_formed { IfOk result (λ _. IsCosetBelow F.ORDER_U64 most domain.now.shift
        domain.now.log_size) }
    ensures refused { IfErr result (λ _. ¬ IsCosetBelow F.ORDER_U64 most domain.now.shift
        domain.now.log_size) }
{
    if domain.log_size > most {
        return Err(place.lacks(Fault::LogSize));
    }
    let Some(shift) = element(domain.shift) else {
        return Err(place.lacks(Fault::Shift));
    };
    match TwoAdicMultiplicativeCoset::new(shift, domain.log_size) {
        Some(coset) => Ok(coset),
        None => Err(place.lacks(Fault::Shift)),
    }
}

/// What numbers are read of and written as, where records name points and domains: the points are
/// of type `EF`, the domains of type `D`. What reads and writes whole records asks for no more.
pub trait Numbered<EF: Copy, D: Copy> {
    // the numbers of a point
    ghost numbers_of: { EF → List ℕ };

    // those of a domain: its shift's, and the logarithm of its size
    ghost shift_of: { D → ℕ };

    ghost log_size_of: { D → ℕ };

    // these are the numbers of some point, and those of some domain
    ghost IsPoint: { List ℕ → Type 0 };

    ghost IsDomain: { ℕ → ℕ → Type 0 };

    /// The numbers of a point.
    fn point_numbers(alloc: Global, point: EF) -> Result<Vec<u64>, AllocError>
        ensures { IfOk result (λ v. v.items ≡ numbers_of point) };

    /// The point of these numbers, at this place.
    fn read_point(numbers: &[u64], place: Place) -> Result<EF, Misfit>
        ensures numbers { IfOk result (λ x. numbers_of x ≡ numbers.now) }
        ensures refused { IfErr result (λ _. ¬ IsPoint numbers.now) };

    /// A domain as a record.
    fn domain_numbers(domain: D) -> Domain
        ensures shift { result.shift ≡ shift_of domain }
        ensures log_size { result.log_size ≡ log_size_of domain };

    /// The domain of a record, at this place.
    fn read_domain(domain: &Domain, place: Place) -> Result<D, Misfit>
        ensures shift { IfOk result (λ d. shift_of d ≡ domain.now.shift) }
        ensures log_size { IfOk result (λ d. log_size_of d ≡ domain.now.log_size) }
        ensures refused { IfErr result (λ _.
            ¬ IsDomain domain.now.shift domain.now.log_size) };
}

/// Points are elements of an extension, by their coefficients, and domains are cosets.
impl<F: PrimeField64 + TwoAdicField, EF: ExtensionField<F>> Numbered<
    EF,
    TwoAdicMultiplicativeCoset<F>,
> for F {
    ghost numbers_of = { λ x. map F.canonical (EF.coefficients x) };

    ghost shift_of = { λ d. F.canonical d.shift };

    ghost log_size_of = { λ d. d.log_size };

    ghost IsPoint = { λ numbers. AreCoefficients F.ORDER_U64 EF.DIMENSION numbers };

    ghost IsDomain = { λ shift log_size. IsCosetBelow F.ORDER_U64 F.TWO_ADICITY shift log_size };

    fn point_numbers(alloc: Global, point: EF) -> Result<Vec<u64>, AllocError> {
        coefficients::<F, EF>(alloc, point)
    }

    fn read_point(numbers: &[u64], place: Place) -> Result<EF, Misfit> {
        extension_element::<F, EF>(numbers, place)
    }

    fn domain_numbers(domain: TwoAdicMultiplicativeCoset<F>) -> Domain {
        Domain {
            shift: domain.shift.as_canonical_u64(),
            log_size: domain.log_size,
        }
    }

    fn read_domain(domain: &Domain, place: Place) -> Result<TwoAdicMultiplicativeCoset<F>, Misfit> {
        coset::<F>(domain, F::TWO_ADICITY, place)
    }
}

/// The points of these numbers; their indices follow `place`.
pub(crate) fn read_points<EF: Copy, D: Copy, N: Numbered<EF, D>>(
    alloc: Global,
    lists: &[Vec<u64>],
    place: Place,
) -> Result<Vec<EF>, ReadError>
    ensures numbers { IfOk result (λ v.
        map N.numbers_of v.items ≡ map (λ numbers. numbers.items) lists.now) }
    ensures refused { IfErr result (IfMalformed
        (¬ All N.IsPoint (map (λ numbers. numbers.items) lists.now))) }
{
    let mut values = Vec::with_capacity(alloc, lists.len())?;
    for (index, numbers) in lists.iter().enumerate() {
        let place = Place {
            value: Some(index),
            ..place
        };
        values.push(N::read_point(numbers, place)?)?;
    }
    Ok(values)
}
