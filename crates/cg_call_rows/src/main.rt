//! Worked rows of calls: each line of the input is a call with its arguments, and is written back with its answer, or
//! with a `!` and why it was refused. The expected answers in `stdout` come from the textbook and the literature, were
//! worked out by hand, or were found by other programs from the rules. A line that begins with `#` says what the lines
//! after it show.
//!
//! - `make`, `digits`, `left_option`, `right_option`, `between`, `add`, `half`, `compare`: numbers
//! - `wide`, `plus`, `halved`, `wider`: wall values
//! - `le`, `order`, `copy`, `form`, `depths`: whole trees
//! - `desk`: games on handles, their cost, order, options and walls
//! - `home`, `blank`: homes of keys; the blank handle
//! - `line`, `cuts`, `statement`, `session`: the question that a line reads as, or the column at which it is refused
//! - `all`, `last`: values of heaps
//! - `nimber`, `switch`, `clobber`: values, by their names, and what was spent on them
//! - `sample`: the sample of so many lines, with ` ~ ` for each end of a line
//! - the name of a game, or `rays`: boards
#![tactic(auto)]

mod boards;
mod calls;
mod desk;
mod heaps;
mod lines;
mod numbers;
mod text;
mod trees;
mod values;

use crate::text::cut;
use cg_sample::sample;
use std::alloc::Global;

fn sampled(alloc: Global, rest: &str) -> anyhow::Result<String> {
    let lines = rest.parse::<u64>()?;
    if !(1..=4096).contains(&lines) {
        anyhow::bail!("no sample");
    }
    Ok(sample(alloc, lines)?.replace(alloc, "\n", " ~ ")?)
}

fn answer(alloc: Global, row: &str) -> anyhow::Result<String> {
    let (call, rest) = cut(row, ' ');
    match call {
        "make"
        | "digits"
        | "left_option"
        | "right_option"
        | "between"
        | "add"
        | "half"
        | "compare" => { numbers::answer(alloc, call, rest) }
        "wide" | "plus" | "halved" | "wider" => numbers::on_walls(alloc, call, rest),
        "le" | "order" | "copy" | "form" | "depths" => trees::answer(alloc, call, rest),
        "desk" => calls::answer(alloc, rest),
        "home" | "blank" => calls::on_cells(alloc, rest),
        "line" | "cuts" | "statement" | "session" => Ok(lines::answer(
            alloc,
            call,
            rest.as_bytes(),
        )?),
        "all" | "last" => heaps::answer(alloc, call, rest),
        "nimber" | "switch" | "clobber" => values::answer(alloc, call, rest),
        "sample" => sampled(alloc, rest),
        _ => boards::answer(alloc, call, rest),
    }
}

fn main(rt: HostRuntime) -> anyhow::Result<()> {
    for line in rt.lines(rt.alloc()) {
        let line = line?;
        let row = line.as_str();
        if row.starts_with('#') {
            println!(rt; "{row}")?;
        } else {
            match answer(rt.alloc(), row) {
                Ok(text) => println!(rt; "{row} => {text}")?,
                Err(error) => println!(rt; "{row} => ! {error}")?,
            }
        }
    }
    Ok(())
}
