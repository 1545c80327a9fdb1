//! Numbers, each kept in as few bytes as the greatest of them takes.
//!
//! Most documents lead to fewer than 256 sets: one byte a position is then enough. When a greater number comes all are
//! widened, at most twice.
ghost use Rattle.std.specs.Prelude.{◌≡◌, ◌<◌, [], ◌∷◌, ◌++◌, length, slice_index, IfOk};
ghost use Rattle.segment_filter.specs.SetNumbers.{numbers_of};

use span_core::OutOfMemory;
use std::alloc::Global;

/// Numbers in 1, 2 or 4 bytes each: in the fewest that the greatest of them takes.
#[derive(Drop)]
pub(crate) enum Numbers {
    One(Vec<u8>),
    Two(Vec<u16>),
    Four(Vec<u32>),
}

impl Numbers {
    /// No numbers, with room for so many of one byte each.
    pub(crate) fn with_room(alloc: Global, count: usize) -> Result<Numbers, OutOfMemory>
        ensures { IfOk result (λ none. numbers_of none ≡ []) }
    {
        Ok(Numbers::One(Vec::with_capacity(alloc, count)?))
    }

    /// The numbers with one more behind them.
    #[inline(always)]
    pub(crate) fn followed_by(self, alloc: Global, number: u32) -> Result<Numbers, OutOfMemory>
        ensures { IfOk result (λ more. numbers_of more ≡ numbers_of self ++ number ∷ []) }
    {
        match self {
            Numbers::One(numbers) => one_more(alloc, numbers, number),
            Numbers::Two(numbers) => two_more(alloc, numbers, number),
            Numbers::Four(numbers) => four_more(numbers, number),
        }
    }

    /// How many there are.
    #[inline(always)]
    pub(crate) fn len(&self) -> usize
        ensures { result ≡ length (numbers_of self.now) }
    {
        match self {
            Numbers::One(numbers) => numbers.len(),
            Numbers::Two(numbers) => numbers.len(),
            Numbers::Four(numbers) => numbers.len(),
        }
    }

    /// The number at a place, counted from 0.
    #[inline(always)]
    pub(crate) fn at(&self, k: usize) -> u32
        requires { k < length (numbers_of self.now) }
        ensures { result ≡ slice_index (numbers_of self.now) k }
    {
        match self {
            Numbers::One(numbers) => u32::from(numbers[k]),
            Numbers::Two(numbers) => u32::from(numbers[k]),
            Numbers::Four(numbers) => numbers[k],
        }
    }
}

#[inline(always)]
fn one_more(alloc: Global, numbers: Vec<u8>, number: u32) -> Result<Numbers, OutOfMemory>
    ensures { IfOk result (λ more. numbers_of more ≡ numbers.items ++ number ∷ []) }
{
    if number <= u32::from(u8::MAX) && numbers.len() < numbers.capacity() {
        let mut numbers = numbers;
        numbers.push_reserved(number as u8);
        return Ok(Numbers::One(numbers));
    }
    one_more_anew(alloc, numbers, number)
}

/// One number more, where there is no room for it, or it takes more bytes.
#[cold]
#[inline(never)]
fn one_more_anew(alloc: Global, numbers: Vec<u8>, number: u32) -> Result<Numbers, OutOfMemory>
    ensures { IfOk result (λ more. numbers_of more ≡ numbers.items ++ number ∷ []) }
{
    if number > u32::from(u8::MAX) {
        return two_more(alloc, widened(alloc, &numbers, numbers.capacity())?, number);
    }
    let mut numbers = numbers;
    numbers.push(number as u8)?;
    Ok(Numbers::One(numbers))
}

#[inline(always)]
fn two_more(alloc: Global, numbers: Vec<u16>, number: u32) -> Result<Numbers, OutOfMemory>
    ensures { IfOk result (λ more. numbers_of more ≡ numbers.items ++ number ∷ []) }
{
    if number <= u32::from(u16::MAX) && numbers.len() < numbers.capacity() {
        let mut numbers = numbers;
        numbers.push_reserved(number as u16);
        return Ok(Numbers::Two(numbers));
    }
    two_more_anew(alloc, numbers, number)
}

/// One number more, where there is no room for it, or it takes more bytes.
#[cold]
#[inline(never)]
fn two_more_anew(alloc: Global, numbers: Vec<u16>, number: u32) -> Result<Numbers, OutOfMemory>
    ensures { IfOk result (λ more. numbers_of more ≡ numbers.items ++ number ∷ []) }
{
    if number > u32::from(u16::MAX) {
        return four_more(widened_again(alloc, &numbers, numbers.capacity())?, number);
    }
    let mut numbers = numbers;
    numbers.push(number as u16)?;
    Ok(Numbers::Two(numbers))
}

fn four_more(numbers: Vec<u32>, number: u32) -> Result<Numbers, OutOfMemory>
    ensures { IfOk result (λ more. numbers_of more ≡ numbers.items ++ number ∷ []) }
{
    let mut numbers = numbers;
    numbers.push(number)?;
    Ok(Numbers::Four(numbers))
}

/// The numbers in two bytes each, with room for so many.
fn widened(alloc: Global, numbers: &[u8], room: usize) -> Result<Vec<u16>, OutOfMemory>
    ensures { IfOk result (λ wide. wide.items ≡ numbers.now) }
{
    let mut wide = Vec::with_capacity(alloc, room)?;
    for number in numbers {
        wide.push(u16::from(*number))?;
    }
    Ok(wide)
}

/// The numbers in four bytes each, with room for so many.
fn widened_again(alloc: Global, numbers: &[u16], room: usize) -> Result<Vec<u32>, OutOfMemory>
    ensures { IfOk result (λ wide. wide.items ≡ numbers.now) }
{
    let mut wide = Vec::with_capacity(alloc, room)?;
    for number in numbers {
        wide.push(u32::from(*number))?;
    }
    Ok(wide)
}
