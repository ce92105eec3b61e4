//! Keys and their words.
ghost use Rattle.cg_cells.specs.Layout.{FieldsFit};

use cg_cells::{Id, Key, KeyParts};
use std::test::Fail;

/// Whether the key of the parts has this word, and the word has parts: by the clauses of both calls the same.
fn is_packed(parts: KeyParts, word: u64) -> bool
    requires { FieldsFit parts }
{
    let key = Key::pack(parts);
    key.word() == word && Key::from_word(word).and_then(|key| key.unpack()).is_some()
}

#[test]
fn packs_and_unpacks_six_keys(rt: HostRuntime) {
    let ids = (Id::new(0), Id::new(1));
    assert!(rt; is_packed(KeyParts::Number { num: 0, exp: 0 }, 0x2000_0000_0000_0000));
    assert!(rt; is_packed(KeyParts::Number { num: 1, exp: 1 }, 0x2020_0000_0000_0001));
    assert!(rt; is_packed(KeyParts::Number { num: -1, exp: 0 }, 0x201f_ffff_ffff_ffff));
    let list = KeyParts::Cons {
        first: ids.0,
        rest: None,
    };
    assert!(rt; is_packed(list, 0x6000_0000_0000_0001));
    let game = KeyParts::Game {
        lefts: Some(ids.1),
        rights: Some(ids.1),
    };
    assert!(rt; is_packed(game, 0x8000_0000_1000_0002));
    let long = KeyParts::Long {
        first: ids.1,
        exp: 3,
        negative: true,
    };
    assert!(rt; is_packed(long, 0xe000_0002_1800_0002));
}

#[test]
fn other_words_have_no_parts(rt: HostRuntime) -> Result<(), Fail> {
    assert!(rt; Key::from_word(0).is_none());
    for word in [
        // No kind.
        1,
        // A long number with the exponent 41, one without chunks, and one with a bit above its sign.
        0xe000_0001_4800_0001,
        0xe000_0000_0000_0000,
        0xe000_0004_0000_0001,
        // 2/2, and a number with the exponent 32.
        0x2020_0000_0000_0002,
        0x2400_0000_0000_0001,
        // A game without a list, and a pair in the wrong order.
        0x8000_0000_0000_0000,
        0xa000_0000_0800_0002,
        // A board of no rows, and an id of 2^26.
        0xc040_0100_0000_0001,
        0x6000_0000_0400_0001,
    ] {
        let key = Key::from_word(word).ok_or("0")?;
        assert!(rt; key.unpack().is_none(), "{word:x}");
    }
    Ok(())
}
