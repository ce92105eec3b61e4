//! Chains of entries.
//!
//! The entries are counted from 0, in the order in which they are added, each with a number. The owner of the list has
//! what an entry stands for. Each number has one chain, in which its entries stand among those of some other numbers,
//! the newest first.
ghost use Rattle.std.specs.Prelude.{◌≡◌, ◌++◌, ◌<◌, ◌∷◌, [], IfNone, IfOk, IfSome};
ghost use Rattle.std.specs.Prelude.{OnErr, ℕ, false, get_or, length, true};
ghost use Rattle.cg_hash_index.specs.Chains.{AreChained, chain_at, numbers};

use std::alloc::{AllocError, Global};
use std::marker::Model;

/// The least number of chains, once there is an entry.
const FEWEST: usize = 8;

/// An entry.
#[derive(Clone, Copy)]
pub(crate) struct Entry {
    /// Its number.
    number: u32,
    /// How many entries stand up to the one before it in its chain, and with that one; 0 where it is the first.
    before: usize,
}

/// The numbers of entries, in the order in which they were added, and where entries of a number stand. Contracts see
/// the numbers.
#[derive(Drop)]
pub struct HashIndex {
    alloc: Global,
    entries: Vec<Entry>,
    /// For each chain how many entries stand up to its last one, and with that one; 0 where it has none.
    chains: Vec<usize>,
}

impl Model for HashIndex {
    ghost use Rattle.std.specs.Prelude.{ℕ, List};
    ghost use Rattle.std.specs.Coded.{coded_list, coded_ℕ};
    ghost use Rattle.cg_hash_index.specs.Chains.{AreChained, numbers};

    ghost Value = { List ℕ };

    ghost coded = { coded_list coded_ℕ };

    ghost view = { λ s. numbers s.entries.items };

    ghost invariant = { λ s. AreChained s.entries.items s.chains.items };
}

/// The chain of entries of this number, of so many. All bits of the number have their part in it, so it doesn't matter
/// in which bits an owner's numbers differ.
fn chain_of(number: u32, chains: usize) -> usize
    requires { 0 < chains }
    ensures value { result ≡ chain_at number chains }
    ensures below { result < chains }
{
    let mixed = number.wrapping_mul(0x9E37_79B1);
    ((mixed as u128 * chains as u128) >> 32) as usize
}

/// At least so many chains, and some: as many as there are, or twice as many, and so on.
fn size_for(least: usize, chains: usize) -> usize
    ensures { 0 < result }
{
    let mut size = chains.max(FEWEST);
    while size < least {
        size = size.saturating_mul(2);
    }
    size
}

/// Adds an entry of this number behind the others.
#[inline(always)]
fn add(entries: &mut Vec<Entry>, chains: &mut [usize], number: u32) -> Result<(), AllocError>
    requires some { 0 < length chains.old }
    requires chained { AreChained entries.old.items chains.old }
    ensures chained { AreChained entries.new.items chains.new }
    ensures chains { length chains.new ≡ length chains.old }
    ensures more { IfOk result (λ _. numbers entries.new.items ≡ numbers entries.old.items ++ (number ∷ [])) }
    ensures same { OnErr result (numbers entries.new.items ≡ numbers entries.old.items) }
{
    let chain = chain_of(number, chains.len());
    let before = chains[chain];
    entries.push(Entry { number, before })?;
    chains[chain] = entries.len();
    Ok(())
}

/// Puts the entries into chains that have none.
fn put_all(entries: &mut [Entry], chains: &mut [usize])
    requires some { 0 < length chains.old }
    requires none { AreChained [] chains.old }
    ensures chained { AreChained entries.new chains.new }
    ensures chains { length chains.new ≡ length chains.old }
    ensures same { numbers entries.new ≡ numbers entries.old }
{
    for entry in 0..entries.len() {
        let number = entries[entry].number;
        let chain = chain_of(number, chains.len());
        let before = chains[chain];
        entries[entry] = Entry { number, before };
        chains[chain] = entry + 1;
    }
}

/// Puts the entries into at least so many chains, and some.
fn spread(
    alloc: Global,
    entries: &mut [Entry],
    chains: &mut Vec<usize>,
    least: usize,
) -> Result<(), AllocError>
    requires { AreChained entries.old chains.old.items }
    ensures chained { AreChained entries.new chains.new.items }
    ensures same { numbers entries.new ≡ numbers entries.old }
    ensures some { IfOk result (λ _. 0 < length chains.new.items) }
{
    let mut heads = vec![in alloc; 0; size_for(least, chains.len())]?;
    put_all(entries, &mut heads);
    *chains = heads;
    Ok(())
}

impl HashIndex {
    /// Of no entries.
    pub fn new(alloc: Global) -> HashIndex
        ensures { result ≡ [] }
    {
        HashIndex {
            alloc,
            entries: Vec::new(alloc),
            chains: Vec::new(alloc),
        }
    }

    /// The last entry of this number that is the one that is looked for, if there is one.
    #[inline(always)]
    pub fn find<F: Fn(usize) -> bool>(&self, number: u32, is: F) -> Option<usize>
        requires { F.IsAlwaysCallable is }
        ensures inside { IfSome result (λ n. n < length self.now) }
        ensures numbered { IfSome result (λ n. get_or self.now n 0 ≡ number) }
        ensures found { IfSome result (λ n. F.post is n true) }
        ensures last { IfSome result (λ n. (m : ℕ) → n < m → m < length self.now → get_or self.now m 0 ≡ number → F.post is m false) }
        ensures none { IfNone result ((m : ℕ) → m < length self.now → get_or self.now m 0 ≡ number → F.post is m false) }
    {
        if self.chains.is_empty() {
            return None;
        }
        let mut up_to = self.chains[chain_of(number, self.chains.len())];
        while up_to > 0 {
            let entry = up_to - 1;
            let found = self.entries[entry];
            if found.number == number && is(entry) {
                return Some(entry);
            }
            up_to = found.before;
        }
        None
    }

    /// Adds the next entry, with this number.
    #[inline(always)]
    pub fn add(&mut self, number: u32) -> Result<(), AllocError>
        ensures more { IfOk result (λ _. self.new ≡ self.old ++ (number ∷ [])) }
        ensures same { OnErr result (self.new ≡ self.old) }
    {
        let alloc = self.alloc;
        let count = self.entries.len();
        if count >= self.chains.len() {
            spread(
                alloc,
                &mut self.entries,
                &mut self.chains,
                count.saturating_add(1),
            )?;
        }
        add(&mut self.entries, &mut self.chains, number)?;
        Ok(())
    }

    /// Takes room for so many more entries at once.
    pub fn reserve(&mut self, count: usize) -> Result<(), AllocError>
        ensures { self.new ≡ self.old }
    {
        let alloc = self.alloc;
        let all = self.entries.len().saturating_add(count);
        if all > self.chains.len() {
            spread(alloc, &mut self.entries, &mut self.chains, all)?;
        }
        self.entries.reserve(count)
    }
}
