//! The values of the options of a heap, from those of smaller heaps.
ghost use Rattle.std.specs.Prelude.{◌≡◌, ◌<◌, ◌≤◌, ◌/◌, ◌∷◌, ◌++◌, [], IfOk, if◌then◌else◌, length, suc};
ghost use Rattle.cg_octal.specs.Found.{Adds};
ghost use Rattle.cg_octal.specs.Heaps.{AreValues, digit_options, heap, heap_options, leaves_nothing};
ghost use Rattle.cg_octal.specs.Heaps.{leaves_one_heap, leaves_two_heaps, two_heaps};

use std::alloc::AllocError;

fn leaves_nothing(digit: u8, left: usize) -> bool
    ensures { result ≡ leaves_nothing digit left }
{
    left == 0 && digit % 2 == 1
}

fn leaves_one_heap(digit: u8, left: usize) -> bool
    ensures { result ≡ leaves_one_heap digit left }
{
    left > 0 && digit / 2 % 2 == 1
}

fn leaves_two_heaps(digit: u8) -> bool
    ensures { result ≡ leaves_two_heaps digit }
{
    digit / 4 % 2 == 1
}

/// Appends the value if the test holds.
fn with_value(test: bool, value: u64, found: Vec<u64>) -> Result<Vec<u64>, AllocError>
    ensures { IfOk result (λ all. all.items ≡ found.items ++ (if test then value ∷ [] else [])) }
{
    let mut all = found;
    if test {
        all.push(value)?;
    }
    Ok(all)
}

/// Appends the values of the sums of two heaps with `left` tokens together.
fn with_two_heaps(
    digits: &[u8],
    values: &[u64],
    left: usize,
    found: Vec<u64>,
) -> Result<Vec<u64>, AllocError>
    requires values { AreValues digits.now values.now }
    requires lesser { left < length values.now }
    ensures { IfOk result (λ all.
        Adds (suc left) (two_heaps (heap digits.now) left (left / 2)) found.items all.items) }
{
    let mut all = found;
    for tokens in 0..left / 2 {
        all.push(values[tokens + 1] ^ values[left - (tokens + 1)])?;
    }
    Ok(all)
}

/// Appends the values of the options by one digit, with `left` tokens left.
fn with_digit_options(
    digits: &[u8],
    values: &[u64],
    digit: u8,
    left: usize,
    found: Vec<u64>,
) -> Result<Vec<u64>, AllocError>
    requires values { AreValues digits.now values.now }
    requires lesser { left < length values.now }
    ensures { IfOk result (λ all. Adds (suc left) (digit_options (heap digits.now) digit left) found.items all.items) }
{
    let all = with_value(leaves_nothing(digit, left), 0, found)?;
    let all = with_value(leaves_one_heap(digit, left), values[left], all)?;
    if leaves_two_heaps(digit) {
        with_two_heaps(digits, values, left, all)
    } else {
        Ok(all)
    }
}

/// Appends the values of the options of a heap of `count` tokens by these digits, the first for removing one token.
pub(crate) fn with_options(
    digits: &[u8],
    values: &[u64],
    further: &[u8],
    count: usize,
    found: Vec<u64>,
) -> Result<Vec<u64>, AllocError>
    requires values { AreValues digits.now values.now }
    requires lesser { count ≤ length values.now }
    ensures { IfOk result (λ all. Adds count (heap_options (heap digits.now) further.now count) found.items all.items) }
{
    if count == 0 {
        return Ok(found);
    }
    match further.split_first() {
        None => Ok(found),
        Some((digit, others)) => {
            let all = with_digit_options(digits, values, *digit, count - 1, found)?;
            with_options(digits, values, others, count - 1, all)
        }
    }
}
