//! An item more behind others, and counts in 32 bits.
ghost use Rattle.std.specs.Prelude.{◌≡◌, ◌<◌, ◌++◌, [], ◌∷◌, IfOk, OnOk, vec_capacity, vec_len};

use std::alloc::AllocError;

/// Takes room for one item more.
#[cold]
#[inline(never)]
fn take_room<T>(items: &mut Vec<T>) -> Result<(), AllocError>
    ensures items { items.new.items ≡ items.old.items }
    ensures room { OnOk result (vec_len items.new < vec_capacity items.new) }
{
    items.reserve(1)
}

/// Puts the item behind the others: with no call where there is room for it, as there mostly is.
#[inline(always)]
pub fn push<T: Drop>(items: &mut Vec<T>, item: T) -> Result<(), AllocError>
    ensures { OnOk result (items.new.items ≡ items.old.items ++ (item ∷ [])) }
{
    if items.len() >= items.capacity() {
        take_room(items)?;
    }
    items.push_reserved(item);
    Ok(())
}

/// The count in 32 bits. One that needs more is refused as want of memory.
#[inline(always)]
pub(crate) fn narrowed(count: usize) -> Result<u32, AllocError>
    ensures { IfOk result (λ n. n ≡ count) }
{
    if count > u32::MAX as usize {
        return Err(AllocError);
    }
    Ok(count as u32)
}

/// Puts the count behind the others. One that needs more than 32 bits is refused as want of memory.
#[inline(always)]
pub fn push_count(counts: &mut Vec<u32>, count: usize) -> Result<(), AllocError>
    ensures { OnOk result (counts.new.items ≡ counts.old.items ++ (count ∷ [])) }
{
    push(counts, narrowed(count)?)
}
