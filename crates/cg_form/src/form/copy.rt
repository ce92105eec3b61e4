//! Copies of forms.
ghost use Rattle.std.specs.Prelude.{◌≡◌, IfOk};
ghost use Rattle.cg_form.specs.Forms.{game_of, games_of};

use super::{Form, Options};
use std::alloc::{AllocError, Global};

impl Options {
    #[cycle(copy)]
    fn copy_all(&self, alloc: Global) -> Result<Options, AllocError>
        ensures { IfOk result (λ copy. copy ≡ self.now) }
    {
        let mut items = Vec::new(alloc);
        for form in self.as_slice() {
            let copy = form.copy(alloc)?;
            items.push(copy)?;
        }
        Ok(Options { items })
    }
}

impl Form {
    /// A form of the same game, of the same shape.
    #[cycle(copy)]
    pub fn copy(&self, alloc: Global) -> Result<Form, AllocError>
        ensures { IfOk result (λ copy. game_of copy ≡ game_of self.now) }
    {
        match self {
            Form::Num(x) => Ok(Form::Num(*x)),
            Form::Node(lefts, rights) => {
                let left_copies = lefts.copy_all(alloc)?;
                let right_copies = rights.copy_all(alloc)?;
                Ok(Form::Node(left_copies, right_copies))
            }
        }
    }
}
