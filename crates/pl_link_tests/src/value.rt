// What relocations of recipes give. The first object is a program, and the second is placed at 0x30_0000_0000.
ghost use Rattle.std.specs.Prelude.{◌≡◌, length};

use crate::samples::object_of;
use crate::scope::scope_of;
use pl_base::Rows;
use pl_scope::Scope;
use pl_value::{Meaning, Places, Word, meanings, value};
use std::alloc::Global;
use std::test::Fail;

const WORDS: &str =
    "program\nneeds lib\ndata 20\nref o global object\nref g weak object\nrel abs64 0 o -1\nrel dtpoff 8 - 4\nrel globdat 10 g 0\nrel none 18 - 0\ntls 0 0 8 8\n";

const NUMBER: &str = "library\ndata 8\ndef o global abs 10 0\n";

const COPY: &str = "program\nneeds libe\nbss 10\ndef x global object 0 10\nrel copy 0 x 0\n";

const SHORT: &str = "library\ndata 10\nword 0 33\nword 8 44\ndef x global object 0 8\n";

// What a relocation gives, None where there is no such relocation.
fn word_of(
    scope: &Scope<'_>,
    places: &Places,
    member: u32,
    reloc: u32,
) -> Result<Option<Word>, Fail>
    requires { length places.now ≡ length scope.now }
{
    if member >= scope.count() {
        return Ok(None);
    }
    if reloc as usize >= scope.object(member).relocations.len() {
        return Ok(None);
    }
    Ok(Some(value(scope, places, &[], member, reloc)?))
}

// What all relocations of two objects give, and what one of the first object gives.
fn meanings_and_word(
    alloc: Global,
    first: &str,
    second: &str,
    reloc: u32,
) -> Result<(Rows<Meaning>, Option<Word>), Fail> {
    let objects = vec![in alloc; object_of(alloc, first)?, object_of(alloc, second)?]?;
    let scope = scope_of(alloc, &objects)?;
    let rows = vec![in alloc; 0, 0x30_0000_0000]?;
    let places = Places::new(Rows::from_vec(rows));
    if scope.count() != 2 {
        return Err("two members".into());
    }
    let meanings = meanings(alloc, &scope, &places, &[])?;
    Ok((meanings, word_of(&scope, &places, 0, reloc)?))
}

const MEANINGS: [Meaning; 4] = [
    Meaning {
        member: 0,
        start: 0x50_0000,
        size: 8,
        word: Word::Put(0xf),
    },
    Meaning {
        member: 0,
        start: 0x50_0008,
        size: 8,
        word: Word::Put(4),
    },
    Meaning {
        member: 0,
        start: 0x50_0010,
        size: 8,
        word: Word::Put(0),
    },
    Meaning {
        member: 0,
        start: 0x50_0018,
        size: 0,
        word: Word::Nothing,
    },
];

#[test]
fn gives_words(rt: HostRuntime) -> Result<(), Fail> {
    let (meanings, last) = meanings_and_word(rt.alloc(), WORDS, NUMBER, 3)?;
    assert!(rt; meanings.as_slice() == MEANINGS.as_slice());
    assert_eq!(rt; last, Some(Word::Nothing));
    Ok(())
}

// A copy is as long as the shorter of the two symbols.
#[test]
fn gives_a_copy(rt: HostRuntime) -> Result<(), Fail> {
    let copy = Word::Copy {
        member: 1,
        from: 0x30_0010_0000,
        bytes: 8,
    };
    let (_, word) = meanings_and_word(rt.alloc(), COPY, SHORT, 0)?;
    assert_eq!(rt; word, Some(copy));
    Ok(())
}
