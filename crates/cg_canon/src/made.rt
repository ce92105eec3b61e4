//! Forms that were made, by the options that they were made from.
//!
//! Many boards lead to the same values, and what was made of the same options is found again here. A form that isn't
//! kept is made anew.
ghost use Rattle.std.specs.Prelude.{◌≡◌, [], IfSome, IsTrue, OnErr};
ghost use Rattle.cg_canon.specs.MadeForms.{IsKept, IsMade};

use crate::interner::HandleList;
use crate::lossy_index::{LossyIndex, half_of, mixed};
use cg_nodes::Handle;
use smallvec::SmallVec;
use std::alloc::{AllocError, Global};

/// A form, with the options that it was made from.
#[derive(Drop)]
pub(crate) struct MadeForm {
    lefts: HandleList,
    rights: HandleList,
    form: Handle,
}

/// Forms that were made, by their options.
#[derive(Drop)]
pub(crate) struct MadeForms {
    alloc: Global,
    forms: Vec<MadeForm>,
    /// Where the form of two lists is looked for.
    places: LossyIndex,
}

/// The greatest number of forms that are kept.
const MOST: usize = 65_536;

/// A number for the handles that follow something of this number.
fn number_of(start: u64, handles: &[Handle]) -> u64 {
    let mut number = start;
    for handle in handles {
        number = mixed(number, u64::from(handle.id().number()));
    }
    number
}

/// A number for the two lists. Those of nimbers are the same, and are gone through once.
pub(crate) fn number_of_both(lefts: &[Handle], rights: &[Handle]) -> u32 {
    let own = number_of(1, lefts);
    if are_same(lefts, rights) {
        return half_of(own);
    }
    half_of(number_of(own.wrapping_add(1), rights))
}

/// Whether the two lists are the same.
pub(crate) fn are_same(a: &[Handle], b: &[Handle]) -> bool
    ensures { IsTrue result → a.now ≡ b.now }
{
    a == b
}

impl MadeForms {
    /// Of no forms.
    pub fn new(alloc: Global) -> MadeForms
        ensures { result.forms.items ≡ [] }
    {
        MadeForms {
            alloc,
            forms: Vec::new(alloc),
            places: LossyIndex::new(alloc),
        }
    }

    /// The form of the entry, if it was made from these options.
    fn form_at(&self, entry: u32, lefts: &[Handle], rights: &[Handle]) -> Option<Handle>
        ensures { IfSome result (IsMade self.now lefts.now rights.now) }
    {
        let made = self.forms.get(entry as usize)?;
        if are_same(made.lefts.as_slice(), lefts) && are_same(made.rights.as_slice(), rights) {
            return Some(made.form);
        }
        None
    }

    /// The form that was made from these options, whose number this is, if it is kept.
    pub fn find(&self, number: u32, lefts: &[Handle], rights: &[Handle]) -> Option<Handle>
        ensures { IfSome result (IsMade self.now lefts.now rights.now) }
    {
        self.places
            .find(number, |entry| self.form_at(entry, lefts, rights))
    }

    /// Keeps the form that was made from these options, whose number this is, unless enough are kept. Nothing changes
    /// where there is no memory.
    pub fn keep(
        &mut self,
        number: u32,
        lefts: &[Handle],
        rights: &[Handle],
        form: Handle,
    ) -> Result<(), AllocError>
        ensures kept { IsKept self.old.forms.items self.new.forms.items lefts.now rights.now form }
        ensures err { OnErr result (self.new.forms.items ≡ self.old.forms.items) }
    {
        if self.forms.len() >= MOST {
            return Ok(());
        }
        let made = MadeForm {
            lefts: SmallVec::from_slice(self.alloc, lefts)?,
            rights: SmallVec::from_slice(self.alloc, rights)?,
            form,
        };
        self.forms.push(made)?;
        self.places.add(number);
        Ok(())
    }
}
