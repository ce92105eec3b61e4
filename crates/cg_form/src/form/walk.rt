//! Reading a form: its options and its depth.
ghost use Rattle.std.specs.Prelude.{◌≡◌, ◌<◌, ◌^◌, ◌↔◌, IsTrue, [], length};
ghost use Rattle.cg_form.specs.Forms.{game_of, games_of};
ghost use Rattle.cg_form.specs.Depth.{depth_of, deepest};

use super::{Form, Options};

impl Options {
    /// How many options there are.
    pub fn len(&self) -> usize
        ensures { result ≡ length self.now }
    {
        self.items.len()
    }

    /// Whether there is no option.
    pub fn is_empty(&self) -> bool
        ensures { IsTrue result ↔ (self.now ≡ []) }
    {
        self.items.is_empty()
    }

    /// The options, in their order.
    pub fn as_slice(&self) -> &[Form]
        ensures { games_of result.now ≡ self.now }
    {
        &self.items
    }

    /// The options in a vector, in their order.
    pub fn into_vec(self) -> Vec<Form>
        ensures { games_of result.items ≡ self }
    {
        let Options { items } = self;
        items
    }

    #[cycle(depth)]
    fn deepest(&self) -> u64
        requires { deepest self.now < 2 ^ 64 }
        ensures { result ≡ deepest self.now }
    {
        let mut most = 0;
        for form in &self.items {
            let depth = form.depth();
            if most < depth {
                most = depth;
            }
        }
        most
    }
}

impl Form {
    /// The depth: 0 for a number, and else 1 more than the greatest depth of an option, and 1 where
    /// there is none.
    #[cycle(depth)]
    pub fn depth(&self) -> u64
        requires { depth_of (game_of self.now) < 2 ^ 64 }
        ensures { result ≡ depth_of (game_of self.now) }
    {
        match self {
            Form::Num(_) => 0,
            Form::Node(lefts, rights) => {
                let left = lefts.deepest();
                let right = rights.deepest();
                if left < right { right + 1 } else { left + 1 }
            }
        }
    }
}
