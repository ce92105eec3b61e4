//! Expressions, and their lists of expressions and terms.
ghost use Rattle.std.specs.Prelude.{◌≡◌, ◌↔◌, IsTrue, [], length};
ghost use Rattle.cg_query.specs.Trees.{trees_in, trees_of, terms_in, terms_of};

use crate::kind::GameKind;
use crate::text::Text;

/// An expression. A run of at most thirty digits fits each of its numbers.
#[cycle(expr)]
#[derive(Debug, Drop)]
pub enum Expr {
    /// `num / den`, with a minus in front where `negative` is set.
    /// A number that was read without a slash has the denominator 1.
    Number {
        negative: bool,
        num: u128,
        den: u128,
    },
    /// So many ups, or downs. A run of carets counts its length.
    Ups {
        down: bool,
        count: u128,
    },
    /// A nimber. One that was read without digits counts 1.
    Nimber(u128),
    /// The switch between `num / den` and its negative.
    Switch {
        num: u128,
        den: u128,
    },
    /// Tiny of `num / den`, or miny.
    Tiny {
        miny: bool,
        num: u128,
        den: u128,
    },
    /// The game of these Left options and these Right options, each in the order of the text.
    Braces(Exprs, Exprs),
    /// The negative.
    Negative(Box<Expr>),
    /// So many times the expression.
    Multiple(u128, Box<Expr>),
    /// The sum of at least two terms, the first of which isn't subtracted.
    Sum(Terms),
    /// A position of a game. In Hackenbush `rules` are the edges, and `board` is empty. In Col and Snort `rules` are
    /// the edges, and `board` the vertices. Of the other games Strip alone has rules.
    Game {
        kind: GameKind,
        rules: Text,
        board: Text,
    },
    /// A heap of so many tokens in the octal game of this code.
    Octal {
        code: Text,
        heap: u128,
    },
    /// A use of a name, with the column where it stands. Only lines of format 2 have uses of names.
    Name {
        text: Text,
        column: u64,
    },
}

/// A term of a sum, which is added or subtracted.
#[cycle(expr)]
#[derive(Debug, Drop)]
pub struct Term {
    /// Whether the term is subtracted.
    pub minus: bool,
    /// What is added or subtracted.
    pub expr: Expr,
}

/// A list of expressions. Contracts see it by `trees_in`, as the list of their plain trees.
#[cycle(expr)]
#[derive(Debug, Drop)]
pub struct Exprs {
    items: Vec<Expr>,
}

/// A list of terms. Contracts see it by `terms_in`, as the list of plain trees, each with whether it is subtracted.
#[cycle(expr)]
#[derive(Debug, Drop)]
pub struct Terms {
    terms: Vec<Term>,
}

#[tactic(auto, using(crate::proofs::TreeOf::exprs_trees, crate::proofs::TreeOf::trees_length))]
impl Exprs {
    /// The list of these expressions.
    pub fn of(items: Vec<Expr>) -> Exprs
        ensures { trees_in result ≡ trees_of items.items }
    {
        Exprs { items }
    }

    /// How many expressions there are.
    pub fn len(&self) -> usize
        ensures { result ≡ length (trees_in self.now) }
    {
        self.items.len()
    }

    /// Whether there is no expression.
    pub fn is_empty(&self) -> bool
        ensures { IsTrue result ↔ (trees_in self.now ≡ []) }
    {
        self.len() == 0
    }

    /// The expressions in order.
    pub fn as_slice(&self) -> &[Expr]
        ensures { trees_of result.now ≡ trees_in self.now }
    {
        &self.items
    }

    /// The expressions in a vector, in order.
    pub fn into_vec(self) -> Vec<Expr>
        ensures { trees_of result.items ≡ trees_in self }
    {
        let Exprs { items } = self;
        items
    }
}

#[tactic(auto, using(crate::proofs::TreeOf::terms_terms, crate::proofs::TreeOf::terms_made, crate::proofs::TreeOf::terms_length))]
impl Terms {
    /// The list of these terms.
    pub fn of(terms: Vec<Term>) -> Terms
        ensures { terms_in result ≡ terms_of terms.items }
    {
        Terms { terms }
    }

    /// How many terms there are.
    pub fn len(&self) -> usize
        ensures { result ≡ length (terms_in self.now) }
    {
        self.terms.len()
    }

    /// Whether there is no term.
    pub fn is_empty(&self) -> bool
        ensures { IsTrue result ↔ (terms_in self.now ≡ []) }
    {
        self.len() == 0
    }

    /// The terms in order.
    pub fn as_slice(&self) -> &[Term]
        ensures { terms_of result.now ≡ terms_in self.now }
    {
        &self.terms
    }

    /// The terms in a vector, in order.
    pub fn into_vec(self) -> Vec<Term>
        ensures { terms_of result.items ≡ terms_in self }
    {
        let Terms { terms } = self;
        terms
    }
}
