//! Claims on a plain store.
ghost use Rattle.std.specs.Prelude.{◌≡◌, ◌∷◌, [], IfOk};

use crate::numbers::{OneHome, whole_key};
use crate::stars::{Games, make_star, zero};
use cg_cells::{CellStore, PlainStore, StoreFault};
use cg_nodes::{Kind, kind, number};
use cg_shared::{SharedCells, Ticket};
use std::alloc::{AllocError, Global};
use std::test::Fail;

#[test]
fn sizes(rt: HostRuntime) -> Result<(), Fail> {
    let store = PlainStore::<OneHome>::new(rt.alloc(), 4096)?;
    assert_eq!(rt; store.spare(), 4096);
    for size in [0, (1 << 26) + 1, u64::MAX] {
        let fault = PlainStore::<OneHome>::new(rt.alloc(), size).err();
        assert_eq!(rt; fault, Some(StoreFault::Size));
    }
    Ok(())
}

#[test]
fn first_claims_get_the_ids_from_0(rt: HostRuntime) -> Result<(), Fail> {
    let mut store = PlainStore::<Games>::new(rt.alloc(), 4096)?;
    let made = make_star(&mut store);
    assert_eq!(rt; made.zero.id().number(), 0);
    assert_eq!(rt; made.star.id().number(), 2);
    assert_eq!(rt; store.look(made.star.id()).word(), 0x8000_0000_1000_0002);
    Ok(())
}

#[test]
fn each_key_keeps_its_cell(rt: HostRuntime) -> Result<(), Fail> {
    let mut near = PlainStore::<OneHome>::new(rt.alloc(), 40)?;
    let mut far = PlainStore::<Games>::new(rt.alloc(), 40)?;
    for num in [
        0, 1, 2, 3, 4, 5, 6, 7, 8, 9, 10, 11, 12, 13, 14, 15, 16, 17, 18, 19, 19, 4, 7, 0, 1, 18,
    ] {
        if near.spare() == 0 || far.spare() == 0 {
            return Err("no spare")?;
        }
        let key = whole_key(num);
        assert_eq!(rt; near.claim(key).number(), num);
        assert_eq!(rt; far.claim(key).number(), num);
    }
    assert_eq!(rt; near.spare(), 14);
    Ok(())
}

/// The word, and three words 0 behind it.
fn and_three(alloc: Global, word: u64) -> Result<Vec<u64>, AllocError>
    ensures { IfOk result (λ words. words.items ≡ word ∷ 0 ∷ 0 ∷ 0 ∷ []) }
{
    let mut words = Vec::new(alloc);
    words.push(word)?;
    words.push(0)?;
    words.push(0)?;
    words.push(0)?;
    Ok(words)
}

/// A store of four words, of which the first is the key of the number 0: its handle is that of the first cell, and
/// reads as 0.
#[test]
fn a_store_of_four_words_reads_as_zero(rt: HostRuntime) -> Result<(), Fail> {
    let word = whole_key(0).word();
    assert_eq!(rt; word, 0x2000_0000_0000_0000);
    let keys = and_three(rt.alloc(), word)?;
    let values = and_three(rt.alloc(), 0)?;
    let mut store = PlainStore::<Games>::of_words(rt.alloc(), keys, values, 3)?;
    assert_eq!(rt; store.spare(), 3);
    let found = number(&mut store, zero());
    assert_eq!(rt; found.id().number(), 0);
    assert_eq!(rt; kind(&mut store, found), Kind::Number(zero()));
    assert_eq!(rt; store.spare(), 2);
    Ok(())
}

/// The words of the finished table are four keys, of which the first is that of the number 0, and four values.
#[test]
#[tactic(auto, using(crate::proofs::Knowing::known_grows))]
fn reads_a_store_of_words(rt: HostRuntime) -> Result<(), Fail> {
    let (cells, mut pass) = SharedCells::<OneHome>::start(rt.alloc(), 1, 4, 1)?;
    let Some(Ticket(_)) = cells.draw(&mut pass) else {
        return Err("no line")?;
    };
    let zero = cells.claim(&mut pass, whole_key(0));
    let mut store = cells.finish(rt.alloc(), pass)?;
    assert_eq!(rt; store.spare(), 3);
    assert_eq!(rt; store.look(zero).word(), 0x2000_0000_0000_0000);
    assert_eq!(rt; store.claim(whole_key(1)).number(), 1);
    assert_eq!(rt; store.claim(whole_key(0)), zero);
    Ok(())
}
