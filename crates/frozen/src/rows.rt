//! The numbers of which a block's rows are made.

ghost use Rattle.std.specs.Prelude.{◌≡◌, ◌<◌, ◌≤◌, ◌+◌, ◌-◌, ◌^◌, ℕ, IfOk, length, slice_index, vec_len, vec_capacity};
ghost use Rattle.std.specs.List.{insert};
ghost use Rattle.frozen.specs.inner.Rows.{IsRaised};
ghost use Rattle.frozen.specs.inner.Copies.{AreFrom, AreLowered};

use std::alloc::{AllocError, Global};

/// Inserts an item where there is room for it.
pub fn insert_reserved<T: Drop>(items: &mut Vec<T>, at: usize, item: T)
    requires room { vec_len items.old < vec_capacity items.old }
    requires within { at ≤ vec_len items.old }
    ensures items { items.new.items ≡ insert items.old.items at item }
    ensures len { vec_len items.new ≡ vec_len items.old + 1 }
{
    let _ = items.insert(at, item);
}

/// Raises each number from a place on by one.
pub fn raise(numbers: &mut [u32], from: usize)
    requires small { (k : ℕ) → k < length numbers.old → slice_index numbers.old k + 1 < 2 ^ 32 }
    ensures { IsRaised numbers.old numbers.new from }
{
    for place in from..numbers.len() {
        numbers[place] += 1;
    }
}

/// Lowers each number from a place on by one.
pub fn lower(numbers: &mut [u32], from: usize)
    requires some { (k : ℕ) → from ≤ k → k < length numbers.old → 0 < slice_index numbers.old k }
    ensures { IsRaised numbers.new numbers.old from }
{
    for place in from..numbers.len() {
        numbers[place] -= 1;
    }
}

/// The numbers from one on and before another.
pub fn numbers_from(alloc: Global, first: u32, end: u32) -> Result<Vec<u32>, AllocError>
    requires { first ≤ end }
    ensures { IfOk result (λ numbers. AreFrom numbers.items first (end - first)) }
{
    let mut numbers = Vec::with_capacity(alloc, (end - first) as usize)?;
    for number in first..end {
        numbers.push_reserved(number);
    }
    Ok(numbers)
}

/// Each number less a base.
pub fn lowered(alloc: Global, numbers: &[u32], base: u32) -> Result<Vec<u32>, AllocError>
    requires { (k : ℕ) → k < length numbers.now → base ≤ slice_index numbers.now k }
    ensures { IfOk result (λ lowered. AreLowered numbers.now lowered.items base) }
{
    let mut lowered = Vec::with_capacity(alloc, numbers.len())?;
    for number in numbers {
        lowered.push_reserved(*number - base);
    }
    Ok(lowered)
}
