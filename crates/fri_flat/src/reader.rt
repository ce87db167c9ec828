//! Numbers and digests at the front of bytes. Memory is asked for only as far as bytes are there.

ghost use Rattle.std.specs.Prelude.{◌≡◌, ◌<◌, ◌≤◌, ◌*◌, ◌++◌, IfOk, Ok, OnErr, length, vec_len};
ghost use Rattle.std.specs.Prelude.{string_bytes, true, map};
ghost use Rattle.std.specs.List.{All};
ghost use Rattle.hex.specs.Hex.{decode_of};
ghost use Rattle.fri_verification.specs.Bound.{IsContext};
ghost use Rattle.std.specs.Int.{to_le_bytes, w64};
ghost use Rattle.fri_flat.specs.Flat.{word, number, numbers, elements, digest, context};
ghost use Rattle.fri_flat.specs.Flat.{IsElement, number_size};
ghost use Rattle.fri_flat.specs.Hiding.{index, IsIndex};

use crate::fault::ReadError;
use crate::layout::{Layout, Width};
use p3_field::PrimeField64;
use std::alloc::{AllocError, Global};

/// The hex text of a digest.
fn hex_of(alloc: Global, bytes: &[u8]) -> Result<String, AllocError>
    requires { length bytes.now ≡ 32 }
    ensures { IfOk result (λ text. digest text ≡ bytes.now) }
{
    let text = hex::encode(alloc, bytes)?;
    Ok(text)
}

/// The hex text of a context.
fn context_of(alloc: Global, bytes: &[u8]) -> Result<String, AllocError>
    ensures { IfOk result (λ text. decode_of (string_bytes text) ≡ Ok bytes.now) }
{
    let text = hex::encode(alloc, bytes)?;
    Ok(text)
}

/// The number of these bytes, the lowest first.
fn number_of(bytes: [u8; 8]) -> u64
    ensures { to_le_bytes w64 result ≡ bytes }
{
    u64::from_le_bytes(bytes)
}

/// Bytes that are read from the front.
#[derive(Drop)]
pub(crate) struct Reader<'a> {
    pub left: &'a [u8],
}

impl<'a> Reader<'a> {
    /// Fewer bytes are left than have to come.
    pub fn missing(&self) -> ReadError {
        ReadError::Missing {
            left: self.left.len(),
        }
    }

    /// Reads a count or a size.
    pub fn word(&mut self) -> Result<u32, ReadError>
        ensures form { IfOk result (λ n. self.old.left.now ≡ word n ++ self.new.left.now) }
        ensures missing { OnErr result (length self.old.left.now < 4) }
    {
        match self.left {
            [first, second, third, fourth, rest @ ..] => {
                let number = u32::from_le_bytes([*first, *second, *third, *fourth]);
                self.left = rest;
                Ok(number)
            },
            _ => Err(self.missing()),
        }
    }

    /// Reads the number of a list's entries, each of which takes four bytes or more.
    pub fn count(&mut self) -> Result<usize, ReadError>
        ensures form { IfOk result (λ n. self.old.left.now ≡ word n ++ self.new.left.now) }
        ensures room { IfOk result (λ n. 4 * n ≤ length self.new.left.now) }
    {
        let count = self.word()? as usize;
        if self.left.len() / 4 < count {
            return Err(self.missing());
        }
        Ok(count)
    }

    /// Whether there are bytes for so many entries of this size.
    fn has_room(&self, size: usize, count: usize) -> bool
        ensures { result ≡ true → size * count ≤ length self.now.left.now }
    {
        match size.checked_mul(count) {
            Some(needed) => needed <= self.left.len(),
            None => false,
        }
    }

    /// Reads so many bytes.
    pub fn bytes(&mut self, count: usize) -> Result<&'a [u8], ReadError>
        ensures form { IfOk result (λ bytes. self.old.left.now ≡ bytes.now ++ self.new.left.now) }
        ensures count { IfOk result (λ bytes. length bytes.now ≡ count) }
        ensures missing { OnErr result (length self.old.left.now < count) }
    {
        if self.left.len() < count {
            return Err(self.missing());
        }
        let (bytes, rest) = self.left.split_at(count);
        self.left = rest;
        Ok(bytes)
    }

    /// Reads a number of eight bytes.
    fn long_word(&mut self) -> Result<u64, ReadError>
        ensures form { IfOk result (λ n. self.old.left.now
            ≡ to_le_bytes w64 n ++ self.new.left.now) }
        ensures missing { OnErr result (length self.old.left.now < 8) }
    {
        let bytes = self.bytes(8)?;
        match <[u8; 8]>::try_from(bytes) {
            Ok(bytes) => Ok(number_of(bytes)),
            Err(_) => Err(self.missing()),
        }
    }

    /// Reads the number of an element of the prime field.
    pub fn number(&mut self, layout: Layout) -> Result<u64, ReadError>
        ensures form { IfOk result (λ n. self.old.left.now
            ≡ number layout n ++ self.new.left.now) }
        ensures missing { OnErr result (length self.old.left.now < number_size layout.width) }
    {
        match layout.width {
            Width::Four => Ok(u64::from(self.word()?)),
            Width::Eight => self.long_word(),
        }
    }

    /// Reads so many such numbers.
    pub fn numbers(
        &mut self,
        alloc: Global,
        layout: Layout,
        count: usize,
    ) -> Result<Vec<u64>, ReadError>
        ensures form { IfOk result (λ v. self.old.left.now
            ≡ numbers layout v.items ++ self.new.left.now) }
        ensures count { IfOk result (λ v. vec_len v ≡ count) }
    {
        if !self.has_room(layout.width.bytes(), count) {
            return Err(self.missing());
        }
        let mut numbers = Vec::with_capacity(alloc, count)?;
        for _ in 0..count {
            numbers.push(self.number(layout)?)?;
        }
        Ok(numbers)
    }

    /// Reads an element of the prime field. Of a number that is none of an element nothing is read.
    fn value<F: PrimeField64>(&mut self, layout: Layout) -> Result<F, ReadError>
        ensures { IfOk result (λ x. self.old.left.now
            ≡ number layout (F.canonical x) ++ self.new.left.now) }
    {
        let number = self.number(layout)?;
        if number >= F::ORDER_U64 {
            return Err(self.missing());
        }
        Ok(F::from_canonical(number))
    }

    /// Reads so many elements of the prime field.
    pub fn values<F: PrimeField64>(
        &mut self,
        alloc: Global,
        layout: Layout,
        count: usize,
    ) -> Result<Vec<F>, ReadError>
        ensures form { IfOk result (λ v. self.old.left.now
            ≡ numbers layout (map F.canonical v.items) ++ self.new.left.now) }
        ensures count { IfOk result (λ v. vec_len v ≡ count) }
    {
        if !self.has_room(layout.width.bytes(), count) {
            return Err(self.missing());
        }
        let mut values = Vec::with_capacity(alloc, count)?;
        for _ in 0..count {
            values.push(self.value(layout)?)?;
        }
        Ok(values)
    }

    /// Reads so many elements of the extension.
    pub fn elements(
        &mut self,
        alloc: Global,
        layout: Layout,
        count: usize,
    ) -> Result<Vec<Vec<u64>>, ReadError>
        ensures form { IfOk result (λ v. self.old.left.now
            ≡ elements layout v.items ++ self.new.left.now) }
        ensures count { IfOk result (λ v. vec_len v ≡ count) }
        ensures each { IfOk result (λ v. All (IsElement layout) v.items) }
    {
        let size = layout.width.bytes().saturating_mul(layout.degree);
        if !self.has_room(size, count) {
            return Err(self.missing());
        }
        let mut elements = Vec::with_capacity(alloc, count)?;
        for _ in 0..count {
            elements.push(self.numbers(alloc, layout, layout.degree)?)?;
        }
        Ok(elements)
    }

    /// Reads an index, or that there is none.
    pub fn index(&mut self) -> Result<Option<usize>, ReadError>
        ensures form { IfOk result (λ i. self.old.left.now ≡ index i ++ self.new.left.now) }
        ensures whole { IfOk result IsIndex }
    {
        match self.word()? {
            u32::MAX => Ok(None),
            number => Ok(Some(number as usize)),
        }
    }

    /// Reads a seed: 32 bytes.
    pub fn seed(&mut self) -> Result<[u8; 32], ReadError>
        ensures form { IfOk result (λ seed. self.old.left.now ≡ seed ++ self.new.left.now) }
        ensures length { IfOk result (λ seed. length seed ≡ 32) }
    {
        let bytes = self.bytes(32)?;
        match <[u8; 32]>::try_from(bytes) {
            Ok(seed) => Ok(seed),
            Err(_) => Err(self.missing()),
        }
    }

    /// Reads a digest, as hex text.
    pub fn digest(&mut self, alloc: Global) -> Result<String, ReadError>
        ensures { IfOk result (λ text. self.old.left.now ≡ digest text ++ self.new.left.now) }
    {
        let digest = self.bytes(32)?;
        Ok(hex_of(alloc, digest)?)
    }

    /// Reads a context, as hex text: the number of its bytes, then these.
    pub fn context(&mut self, alloc: Global) -> Result<String, ReadError>
        ensures form { IfOk result (λ text. self.old.left.now
            ≡ context (string_bytes text) ++ self.new.left.now) }
        ensures whole { IfOk result (λ text. IsContext (string_bytes text)) }
    {
        let count = self.word()? as usize;
        let context = self.bytes(count)?;
        Ok(context_of(alloc, context)?)
    }
}
