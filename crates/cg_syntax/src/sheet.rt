//! What is made of the lines of a session so far.
ghost use Rattle.std.specs.Prelude.{◌≡◌, ◌∷◌, ◌++◌, [], OnOk, IfSome, Some, length, option_map, slice_get};
ghost use Rattle.cg_syntax.specs.Bound.{IsBoundAt, IsSound, Measures, binding_at, bindings_in, has_name, number_of};
ghost use Rattle.cg_syntax.specs.Naming.{bound_to};
ghost use Rattle.cg_syntax.specs.Puts.{IsPut};
ghost use Rattle.cg_syntax.specs.SessionViews.{resolved_of};
ghost use Rattle.cg_syntax.specs.Session.{Asked_of};
ghost use Rattle.cg_query.specs.Tree.{value};
ghost use Rattle.cg_query.specs.Trees.{tree_of};

use crate::session::{Asked, SessionLine, SessionLines};
use crate::sizes::Size;
use cg_hash_index::HashIndex;
use cg_query::{Expr, Query, Text};
use std::alloc::{AllocError, Global};

/// A name that a line binds to the expression of which it asks the value.
#[derive(Debug, Drop)]
pub struct Bound {
    pub name: Text,
    /// The place of the line on its sheet.
    pub line: usize,
    /// How large the expression is.
    pub size: Size,
}

/// The number by which a name is looked up. Two names may have the same number.
fn number_of(name: &[u8]) -> u32
    ensures { result ≡ number_of name.now }
{
    let mut number = 0u32;
    for byte in name {
        number = number.wrapping_mul(257).wrapping_add(u32::from(*byte));
    }
    number
}

/// Whether a binding stands at this place and has this name.
fn has_name(bound: &[Bound], place: usize, name: &[u8]) -> bool
    ensures { result ≡ has_name (slice_get bound.now place) name.now }
{
    match bound.get(place) {
        Some(bound) => bound.name.as_slice() == name,
        None => false,
    }
}

/// The lines so far with what they ask, and the names that they bind, one behind the other. An expression that a name
/// is bound to stands in its line alone. Contracts see what names are bound to by `bindings_in`, the last binding
/// first.
#[derive(Drop)]
pub struct Sheet {
    lines: Vec<SessionLine>,
    bound: Vec<Bound>,
    /// Where bindings are looked for, by the numbers of their names.
    places: HashIndex,
}

impl Sheet {
    /// No line.
    pub fn new(alloc: Global) -> Sheet
        ensures lines { result.lines.items ≡ [] }
        ensures bindings { bindings_in result ≡ [] }
        ensures sound { IsSound result }
    {
        Sheet {
            lines: Vec::new(alloc),
            bound: Vec::new(alloc),
            places: HashIndex::new(alloc),
        }
    }

    /// How many lines there are.
    pub fn len(&self) -> usize
        ensures { result ≡ length self.now.lines.items }
    {
        self.lines.len()
    }

    /// The lines.
    pub fn into_lines(self) -> SessionLines
        ensures { result ≡ self.lines.items }
    {
        SessionLines::of(self.lines)
    }

    /// What the last binding of the name binds it to, and how large that is.
    pub fn get(&self, name: &[u8]) -> Option<(&Expr, Size)>
        requires { IsSound self.now }
        ensures bound { option_map (λ f. tree_of f.0.now) result ≡ bound_to (bindings_in self.now) name.now }
        ensures measures { IfSome result (λ f. Measures f.1 (tree_of f.0.now ∷ [])) }
    {
        let bound = self.bound.as_slice();
        let place = self
            .places
            .find(number_of(name), |place| has_name(bound, place, name))?;
        self.value_of(&bound[place])
    }

    /// The expression of the line that binds a name, and how large it is.
    fn value_of(&self, bound: &Bound) -> Option<(&Expr, Size)>
        requires { IsBoundAt self.now.lines.items bound.now }
        ensures bound { option_map (λ f. tree_of f.0.now) result ≡ Some (binding_at self.now.lines.items bound.now).1 }
        ensures measures { IfSome result (λ f. Measures f.1 (tree_of f.0.now ∷ [])) }
    {
        match &self.lines.get(bound.line)?.asked {
            Asked::Query(Query::Value(expr)) => Some((expr, bound.size)),
            _ => None,
        }
    }

    /// Puts a line at the end that binds no name.
    pub fn push(&mut self, number: u64, asked: Asked) -> Result<(), AllocError>
        requires { IsSound self.old }
        ensures put { OnOk result (IsPut number (resolved_of asked) self.old self.new) }
        ensures bindings { OnOk result (bindings_in self.new ≡ bindings_in self.old) }
        ensures sound { OnOk result (IsSound self.new) }
    {
        self.lines.push(SessionLine { number, asked })?;
        Ok(())
    }

    /// Puts a line at the end that asks for the value of an expression of this size, and binds the name to it.
    pub fn define(
        &mut self,
        number: u64,
        name: Text,
        expr: Expr,
        size: Size,
    ) -> Result<(), AllocError>
        requires sound { IsSound self.old }
        requires measures { Measures size (tree_of expr ∷ []) }
        ensures put { OnOk result (IsPut number (Asked_of (value (tree_of expr))) self.old self.new) }
        ensures bindings { OnOk result (bindings_in self.new ≡ (name, tree_of expr) ∷ bindings_in self.old) }
        ensures sound { OnOk result (IsSound self.new) }
    {
        let line = self.lines.len();
        let asked = Asked::Query(Query::Value(expr));
        self.places.add(number_of(name.as_slice()))?;
        self.lines.push(SessionLine { number, asked })?;
        self.bound.push(Bound { name, line, size })?;
        Ok(())
    }
}
