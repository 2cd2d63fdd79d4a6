// The words of a program as they stand in a story.
ghost use Rattle.std.specs.Prelude.{◌≡◌, ◌+◌, ◌≤◌, ◌++◌, IfOk, OnOk};
ghost use Rattle.dg_fits.specs.Sizes.{words_size};
ghost use Rattle.dg_rt.specs.Words.{two_bytes, word_starts, spellings};
ghost use Rattle.dg_story.specs.Built as spec;

use dg_base::{Items, Name};
use std::alloc::{AllocError, Global};
use z_asm::Table;

// A number is put in two bytes.
fn put_number(bytes: &mut Items<u8>, number: u16) -> Result<(), AllocError>
    ensures { OnOk result (bytes.new ≡ bytes.old ++ two_bytes number) }
{
    bytes.push((number / 256) as u8)?;
    bytes.push((number % 256) as u8)
}

// Where the spellings of words begin, the first at a place.
fn put_starts(bytes: &mut Items<u8>, at: u16, words: &[Name]) -> Result<(), AllocError>
    requires { at + words_size words.now ≤ 65535 }
    ensures { OnOk result (bytes.new ≡ bytes.old ++ word_starts at words.now) }
{
    let mut next = at;
    let mut left = words;
    while let [word, others @ ..] = left {
        put_number(bytes, next)?;
        next += word.len() as u16 + 1;
        left = others;
    }
    Ok(())
}

// The spellings.
fn put_spellings(bytes: &mut Items<u8>, alloc: Global, words: &[Name]) -> Result<(), AllocError>
    ensures { OnOk result (bytes.new ≡ bytes.old ++ spellings words.now) }
{
    let mut left = words;
    while let [word, others @ ..] = left {
        bytes.append(Items::from_slice(alloc, word.as_slice())?)?;
        bytes.push(0)?;
        left = others;
    }
    Ok(())
}

/// The table of words: how many there are, where the spelling of each begins, and the spellings.
#[tactic(auto, using(crate::proofs::CountLemmas::words_many))]
pub fn words_part(alloc: Global, words: &[Name]) -> Result<Table, AllocError>
    requires { words_size words.now ≤ 20000 }
    ensures { IfOk result (λ table. table ≡ spec.words_part words.now) }
{
    let count = words.len() as u16;
    let mut bytes = Items::new(alloc);
    put_number(&mut bytes, count)?;
    put_starts(&mut bytes, 2 + 2 * count, words)?;
    put_spellings(&mut bytes, alloc, words)?;
    Ok(Table {
        bytes,
        writable: false,
    })
}
