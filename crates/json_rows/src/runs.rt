// Numbers in the words of rows.

use std::alloc::{AllocError, Global};

/// Appends numbers, each behind a space. One that stands several times in a row is written once, as `7*3`.
pub fn push_numbers(line: &mut String, numbers: &[i64]) -> Result<(), AllocError> {
    let mut count: u64 = 0;
    for (at, number) in numbers.iter().enumerate() {
        count = count.saturating_add(1);
        if numbers.get(at.saturating_add(1)) == Some(number) {
            continue;
        }
        write!(line, " {number}")?;
        if count > 1 {
            write!(line, "*{count}")?;
        }
        count = 0;
    }
    Ok(())
}

/// Appends bytes by their numbers in the same way.
pub fn push_bytes(alloc: Global, line: &mut String, bytes: &[u8]) -> Result<(), AllocError> {
    let mut numbers = Vec::with_capacity(alloc, bytes.len())?;
    for byte in bytes {
        numbers.push(i64::from(*byte))?;
    }
    push_numbers(line, &numbers)
}

/// The sum of numbers, which stands still at the ends of its type.
pub fn sum_of(numbers: &[i64]) -> i64 {
    let mut sum: i64 = 0;
    for number in numbers {
        sum = sum.saturating_add(*number);
    }
    sum
}
