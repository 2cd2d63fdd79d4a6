// The table of what starts set in the world.
ghost use Rattle.std.specs.Prelude.{◌≡◌, ◌<◌, ◌≤◌, ◌+◌, ◌%◌, ◌++◌, ◌∷◌, [], IfOk, OnOk, length, replicate};
ghost use Rattle.std.specs.Option.{option_copied};
ghost use Rattle.dg_base.specs.Sound.{IsSound};
ghost use Rattle.dg_base.specs.declared.program.Term.{out-Term};
ghost use Rattle.dg_story.specs.Built.{word_bytes, world_table as the_table};
ghost use Rattle.dg_story.specs.Kept.{kept_facts};
ghost use Rattle.dg_story.specs.inside.Keeping.{HoldsStart};
ghost use Rattle.dg_story.specs.inside.World as spec;

use crate::kept::cells_kept;
use dg_base::{Cell, CoreProgram, Items, Place, PlaceKind, Term};
use dg_world::World;
use std::alloc::{AllocError, Global};
use z_asm::Table;

// The word of a simple term.
fn term_word(term: &Term) -> u16
    requires { spec.term_word (out-Term term.now) < 65536 }
    ensures { result ≡ spec.term_word (out-Term term.now) }
{
    match term {
        Term::Num(number) => *number,
        Term::Word(word) => 16_384 + *word,
        Term::Object(object) => 24_576 + *object,
        _ => 28_672,
    }
}

// The word of an object.
fn word_by(starts: &[(u16, Term)], object: u16) -> u16
    requires { spec.AreSmall starts.now }
    ensures { result ≡ spec.word_by starts.now object }
{
    for start in starts {
        if start.0 == object {
            return term_word(&start.1);
        }
    }
    65_535
}

// Its flag.
fn flag_by(starts: &[(u16, Term)], object: u16) -> u8
    ensures { result ≡ spec.flag_by starts.now object }
{
    for start in starts {
        if start.0 == object {
            return 1;
        }
    }
    0
}

/// A word is written.
pub fn put_word(bytes: &mut Items<u8>, word: u16) -> Result<(), AllocError>
    ensures { OnOk result (bytes.new ≡ bytes.old ++ word_bytes (word ∷ [])) }
{
    bytes.push((word / 256) as u8)?;
    bytes.push((word % 256) as u8)
}

// The words of so many objects are.
#[tactic(auto, using(crate::proofs::WorldLemmas::words_next))]
fn put_words(bytes: &mut Items<u8>, starts: &[(u16, Term)], objects: u16) -> Result<(), AllocError>
    requires { spec.AreSmall starts.now }
    ensures { OnOk result (bytes.new ≡ bytes.old ++ word_bytes (spec.words_by starts.now 0 objects)) }
{
    for object in 0..objects {
        put_word(bytes, word_by(starts, object))?;
    }
    Ok(())
}

// So are their flags.
#[tactic(auto, using(crate::proofs::WorldLemmas::flags_next))]
fn put_flags(bytes: &mut Items<u8>, starts: &[(u16, Term)], objects: u16) -> Result<(), AllocError>
    ensures { OnOk result (bytes.new ≡ bytes.old ++ spec.flags_by starts.now 0 objects) }
{
    for object in 0..objects {
        bytes.push(flag_by(starts, object))?;
    }
    Ok(())
}

// How many cells there are.
fn many(cells: Option<&[Cell]>) -> u16
    requires { spec.cells_many (option_copied cells) ≤ 65535 }
    ensures { result ≡ spec.cells_many (option_copied cells.entry) }
{
    match cells {
        Some(cells) => cells.len() as u16,
        None => 0,
    }
}

// The words of a global variable are: from which word on its cells are kept, and how many they are.
fn put_variable(bytes: &mut Items<u8>, cells: Option<&[Cell]>, at: u16) -> Result<(), AllocError>
    requires { at + spec.cells_many (option_copied cells) ≤ 14815 }
    ensures { OnOk result (bytes.new ≡ bytes.old ++ word_bytes (spec.cells_words (option_copied cells.entry) at)) }
{
    let Some(cells) = cells else {
        put_word(bytes, 0)?;
        return put_word(bytes, 0);
    };
    put_word(bytes, 64 + 2 * at)?;
    put_word(bytes, cells.len() as u16)
}

// The words of a place are.
fn put_place(
    bytes: &mut Items<u8>,
    place: &Place,
    objects: u16,
    cells: Option<&[Cell]>,
    at: u16,
) -> Result<(), AllocError>
    requires small { spec.AreSmall place.now.start }
    requires near { at + spec.cells_many (option_copied cells) ≤ 14815 }
    ensures { OnOk result (bytes.new ≡
        bytes.old ++ word_bytes (spec.own_words objects (option_copied cells.entry) at place.now.kind place.now.start)) }
{
    let starts = place.start.as_slice();
    match place.kind {
        PlaceKind::Flag => put_words(bytes, starts, 1),
        PlaceKind::ObjectFlag => Ok(()),
        PlaceKind::ObjectVar | PlaceKind::Parent => put_words(bytes, starts, objects),
        PlaceKind::Global => put_variable(bytes, cells, at),
    }
}

// So are its flags.
fn put_own_flags(bytes: &mut Items<u8>, place: &Place, objects: u16) -> Result<(), AllocError>
    ensures { OnOk result (bytes.new ≡ bytes.old ++ spec.own_flags objects place.now.kind place.now.start) }
{
    match place.kind {
        PlaceKind::ObjectFlag => put_flags(bytes, place.start.as_slice(), objects),
        _ => Ok(()),
    }
}

// The words of places.
fn words_of(
    alloc: Global,
    world: &Option<World>,
    program: &CoreProgram,
) -> Result<Items<u8>, AllocError>
    requires few { length program.now.objects ≤ 65535 }
    requires places { length program.now.places ≤ 65535 }
    requires starts { spec.AllAreSmall program.now.places }
    requires holds { HoldsStart world.now program.now }
    ensures { IfOk result (λ bytes. bytes ≡
        word_bytes (spec.laid_words (length program.now.objects) (kept_facts program.now) 14315 0 program.now.places)) }
{
    let objects = program.objects.len() as u16;
    let mut bytes = Items::new(alloc);
    let mut at = 14_315;
    let mut number = 0;
    for place in program.places.as_slice() {
        let cells = cells_kept(world, program, number, place.kind);
        put_place(&mut bytes, place, objects, cells, at)?;
        at += many(cells);
        number += 1;
    }
    Ok(bytes)
}

// Their flags.
#[tactic(auto, using(crate::proofs::WorldLemmas::flags_on))]
fn flags_of(alloc: Global, places: &[Place], objects: u16) -> Result<Items<u8>, AllocError>
    ensures { IfOk result (λ bytes. bytes ≡ spec.world_flags objects places.now) }
{
    let mut bytes = Items::new(alloc);
    for place in places {
        put_own_flags(&mut bytes, place, objects)?;
    }
    Ok(bytes)
}

// Bytes, filled up to a whole word.
fn filled(bytes: Items<u8>) -> Result<Items<u8>, AllocError>
    ensures { IfOk result (λ filled. filled ≡ bytes ++ replicate (length bytes % 2) 0) }
{
    let mut bytes = bytes;
    if bytes.len() % 2 == 1 {
        bytes.push(0)?;
    }
    Ok(bytes)
}

/// The table of what starts set.
#[tactic(auto, using(crate::proofs::Worlds::laid_made, crate::proofs::Worlds::flags_made))]
pub fn world_table(
    alloc: Global,
    world: &Option<World>,
    program: &CoreProgram,
) -> Result<Table, AllocError>
    requires sound { IsSound program.now }
    requires starts { spec.AllAreSmall program.now.places }
    requires holds { HoldsStart world.now program.now }
    ensures { IfOk result (λ table. table ≡ the_table program.now) }
{
    let objects = program.objects.len() as u16;
    let places = program.places.as_slice();
    let mut bytes = words_of(alloc, world, program)?;
    bytes.append(filled(flags_of(alloc, places, objects)?)?)?;
    Ok(Table {
        bytes,
        writable: true,
    })
}
