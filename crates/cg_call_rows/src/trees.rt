//! Rows of whole trees: comparisons, the structural order, canonical forms, copies and depths.
//!
//! Trees are written as words with blanks between them: `{`, `|` and `}`, and numbers. A `;` stands between two trees.
use crate::text::{cut, number};
use cg_dyadic::Dyadic;
use cg_form::{Form, Options, canonical_slow, compare_structure, le_slow};
use std::alloc::Global;
use std::mem;

fn read(alloc: Global, text: &str) -> anyhow::Result<Form> {
    let mut lists: Vec<Vec<Form>> = Vec::new(alloc);
    let mut here: Vec<Form> = Vec::new(alloc);
    for word in text.split_whitespace() {
        match word {
            "{" | "|" => lists.push(mem::replace(&mut here, Vec::new(alloc)))?,
            "}" => {
                let (Some(lefts), Some(before)) = (lists.pop(), lists.pop()) else {
                    anyhow::bail!("a brace is closed twice");
                };
                let rights = mem::replace(&mut here, before);
                here.push(Form::Node(Options::of(lefts), Options::of(rights)))?;
            }
            _ => here.push(Form::Num(number(word)?))?,
        }
    }
    match here.pop() {
        Some(form) => Ok(form),
        None => anyhow::bail!("no tree"),
    }
}

/// The depths of the greatest number and of the game without options.
fn depths(alloc: Global) -> anyhow::Result<String> {
    let number = Form::Num(Dyadic::greatest());
    let empty = Form::Node(Options::of(Vec::new(alloc)), Options::of(Vec::new(alloc)));
    Ok(format!(in alloc; "{}, {}", number.depth(), empty.depth())?)
}

pub(crate) fn answer(alloc: Global, call: &str, rest: &str) -> anyhow::Result<String> {
    if call == "depths" {
        return depths(alloc);
    }
    let (left, right) = cut(rest, ';');
    let first = read(alloc, left)?;
    let second = read(alloc, right)?;
    match call {
        "le" => {
            let low = le_slow(&first, &second);
            let high = le_slow(&second, &first);
            Ok(format!(in alloc; "{low}, {high}")?)
        }
        "order" => {
            let order = compare_structure(&first, &second);
            let turned = compare_structure(&second, &first);
            let own = compare_structure(&first, &first);
            Ok(format!(in alloc; "{order:?}, {turned:?}, {own:?}")?)
        }
        _ => {
            let found = if call == "copy" {
                first.copy(alloc)?
            } else {
                canonical_slow(alloc, &first)?
            };
            let order = compare_structure(&found, &second);
            Ok(format!(in alloc; "{order:?}")?)
        }
    }
}
