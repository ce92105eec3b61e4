//! Strips of Shove with their values, which are numbers: a piece on the n-th cell is worth n/2^k to its player, where k
//! is how many pieces stand from it on, without the last ones of one colour. A second program found the same, move by
//! move.
use crate::{Shove, read};
use cg_dyadic::Dyadic;
use cg_form::{Form, Options, canonical_slow, compare_structure};
use cg_moves::open;
use std::alloc::Global;
use std::test::Fail;

/// A strip and its value, row by row.
const ROWS: &str = "\
. => 0
..x => 3
.xx => 5
xo => -3/2^1
x.o => -5/2^1
oxo => -9/2^2
oxx => 9/2^1
ooxx => 23/2^2
xoxo => -23/2^3";

/// The number that the word spells.
fn number(word: &str) -> anyhow::Result<Form> {
    let (num, exp) = match word.split_once("/2^") {
        None => (word, "0"),
        Some(terms) => terms,
    };
    Ok(Form::Num(Dyadic::make(num.parse::<i128>()?, exp.parse::<u8>()?)?))
}

/// Copies of the trees at these places.
fn at_places(alloc: Global, trees: &[Form], places: &[u32]) -> anyhow::Result<Options> {
    let mut options = Vec::new(alloc);
    for place in places {
        let Some(tree) = trees.get(*place as usize) else {
            anyhow::bail!("no such place");
        };
        options.push(tree.copy(alloc)?)?;
    }
    Ok(Options::of(options))
}

/// The tree of all moves from the strip of the text.
fn tree(alloc: Global, text: &str) -> anyhow::Result<Form> {
    let board = read(alloc, text.as_bytes())?;
    let graph = open(alloc, &Shove, &board, 1000)?;
    let mut trees: Vec<Form> = Vec::new(alloc);
    for next in &graph.next {
        let Some(places) = graph.places.get(next.first_place as usize..) else {
            anyhow::bail!("no such place");
        };
        let Some((lefts, rest)) = places.split_at_checked(next.lefts as usize) else {
            anyhow::bail!("no such place");
        };
        let Some(rights) = rest.get(..next.moves.saturating_sub(next.lefts) as usize) else {
            anyhow::bail!("no such place");
        };
        let left = at_places(alloc, &trees, lefts)?;
        let right = at_places(alloc, &trees, rights)?;
        trees.push(Form::Node(left, right))?;
    }
    match trees.pop() {
        Some(tree) => Ok(tree),
        None => anyhow::bail!("no tree"),
    }
}

/// The first row whose strip has another value.
fn first_wrong(alloc: Global) -> anyhow::Result<Option<&'static str>> {
    for row in ROWS.split('\n') {
        let Some((strip, value)) = row.split_once(" => ") else {
            return Ok(Some(row));
        };
        let found = canonical_slow(alloc, &tree(alloc, strip)?)?;
        if !compare_structure(&found, &number(value)?).is_eq() {
            return Ok(Some(row));
        }
    }
    Ok(None)
}

#[test]
fn strips_have_their_values(rt: HostRuntime) -> Result<(), Fail> {
    assert_eq!(rt; first_wrong(rt.alloc())?, None);
    Ok(())
}
