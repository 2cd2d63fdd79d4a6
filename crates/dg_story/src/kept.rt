// What global variables start with, as a story keeps it.
ghost use Rattle.std.specs.Prelude.{◌≡◌, ◌<◌, ◌≤◌, ◌+◌, ◌-◌, ◌*◌, ◌++◌, ◌∷◌, [], IfOk, OnOk, Some, List, length, map, option_map, replicate};
ghost use Rattle.std.specs.List.{slice_get};
ghost use Rattle.std.specs.Option.{option_copied};
ghost use Rattle.dg_base.specs.Sound.{IsSound};
ghost use Rattle.dg_meaning.specs.Facts.{kinds_of};
ghost use Rattle.dg_meaning.specs.ValueCells.{cells_of};
ghost use Rattle.dg_rt.specs.Cells.{at_cell};
ghost use Rattle.dg_rt.specs.Copies as spec;
ghost use Rattle.dg_turn.specs.Layout.{place_words as words_of_place, all_words};
ghost use Rattle.dg_rt.specs.Kept.{Block};
ghost use Rattle.dg_story.specs.Built.{word_bytes, kept_table as the_table};
ghost use Rattle.dg_story.specs.Kept.{variable_block, kept_words, owner_words, kept_facts, kept_blocks};
ghost use Rattle.dg_story.specs.inside.Keeping.{kept_value, HoldsStart, AreWords, KeepsWords};

use crate::world::put_word;
use dg_base::{Cell, CoreProgram, Items, PlaceKind};
use dg_world::World;
use std::alloc::{AllocError, Global};
use z_asm::Table;

/// The cells that what starts keep may have.
pub const KEEP: u32 = 500;

/// The world at the start, where what is kept is within its limit.
pub fn start_world(alloc: Global, program: &CoreProgram) -> Result<Option<World>, AllocError>
    requires { IsSound program.now }
    ensures { IfOk result (λ world. HoldsStart world program.now) }
{
    let places = program.places.as_slice();
    let objects = program.objects.len() as u16;
    if !World::starts_within(alloc, places, objects, KEEP)? {
        return Ok(None);
    }
    Ok(Some(World::new(alloc, places, objects, KEEP)?))
}

/// The cells of the value that a place starts with, if it is a global variable.
pub fn cells_kept<'w>(
    world: &'w Option<World>,
    program: &CoreProgram,
    place: u16,
    kind: PlaceKind,
) -> Option<&'w [Cell]>
    requires holds { HoldsStart world.now program.now }
    requires is { slice_get (kinds_of program.now) place ≡ Some kind }
    ensures { option_copied result ≡ option_map cells_of (kept_value (kept_facts program.now) place kind) }
{
    match (kind, world) {
        (PlaceKind::Global, Some(world)) => world.kept(place),
        _ => None,
    }
}

// The word of a cell.
fn cell_word(cell: &Cell) -> u16
    requires { spec.cell_word cell.now < 65536 }
    ensures { result ≡ spec.cell_word cell.now }
{
    match cell {
        Cell::Num(number) => *number,
        Cell::Word(word) => 16_384 + *word,
        Cell::Object(object) => 24_576 + *object,
        Cell::Nil => 28_672,
        Cell::Pair => 28_673,
        Cell::Fresh => 32_768,
        Cell::Unknown(letters) => 32_769 + *letters,
        Cell::Char(letter) => *letter,
        Cell::Closure(place, _) => 49_152 + *place,
    }
}

// The words of cells are written.
fn put_cells(bytes: &mut Items<u8>, cells: &[Cell]) -> Result<(), AllocError>
    requires { AreWords cells.now }
    ensures { OnOk result (bytes.new ≡ bytes.old ++ word_bytes (map spec.cell_word cells.now)) }
{
    for cell in cells {
        put_word(bytes, cell_word(cell))?;
    }
    Ok(())
}

// So many zeros are.
fn put_zeros(alloc: Global, bytes: &mut Items<u8>, many: usize) -> Result<(), AllocError>
    ensures { OnOk result (bytes.new ≡ bytes.old ++ replicate many 0) }
{
    bytes.append(Items::from_vec(vec![in alloc; 0u8; many]?))
}

// For the words of a value, the address of its variable is written, and zeros.
fn put_owner(
    alloc: Global,
    bytes: &mut Items<u8>,
    entry: u16,
    words: usize,
) -> Result<(), AllocError>
    requires { at_cell entry < 65536 }
    ensures { OnOk result (bytes.new ≡ bytes.old ++ word_bytes (at_cell entry ∷ replicate (words - 1) 0)) }
{
    put_word(bytes, 64 + 2 * entry)?;
    if words > 1 {
        put_zeros(alloc, bytes, words - 1)?;
        put_zeros(alloc, bytes, words - 1)?;
    }
    Ok(())
}

// The bytes of what is kept, and of what names its variables.
#[derive(Drop)]
struct Kept {
    words: Items<u8>,
    owners: Items<u8>,
}

impl Kept {
    // What a place starts with is kept.
    fn add(
        &mut self,
        alloc: Global,
        world: &Option<World>,
        program: &CoreProgram,
        place: u16,
        kind: PlaceKind,
        entry: u16,
    ) -> Result<(), AllocError>
        requires holds { HoldsStart world.now program.now }
        requires words { KeepsWords program.now }
        requires is { slice_get (kinds_of program.now) place ≡ Some kind }
        requires near { at_cell entry < 65536 }
        ensures words { OnOk result (self.new.words ≡
            self.old.words ++ word_bytes (kept_words (variable_block (kept_value (kept_facts program.now) place kind) entry))) }
        ensures owners { OnOk result (self.new.owners ≡
            self.old.owners ++ word_bytes (owner_words (variable_block (kept_value (kept_facts program.now) place kind) entry))) }
    {
        let Some(cells) = cells_kept(world, program, place, kind) else {
            return Ok(());
        };
        put_cells(&mut self.words, cells)?;
        put_owner(alloc, &mut self.owners, entry, cells.len())?;
        Ok(())
    }
}

// The words of a place of a kind.
fn place_words(kind: PlaceKind, objects: u16) -> u16
    ensures { result ≡ words_of_place objects kind }
{
    match kind {
        PlaceKind::Flag => 1,
        PlaceKind::ObjectFlag => 0,
        PlaceKind::ObjectVar | PlaceKind::Parent => objects,
        PlaceKind::Global => 2,
    }
}

// What global variables start with.
fn kept_of(alloc: Global, world: &Option<World>, program: &CoreProgram) -> Result<Kept, AllocError>
    requires few { length program.now.objects ≤ 65535 }
    requires places { length program.now.places ≤ 65535 }
    requires holds { HoldsStart world.now program.now }
    requires words { KeepsWords program.now }
    requires room { all_words (length program.now.objects) (kinds_of program.now) ≤ 4000 }
    ensures words { IfOk result (λ kept. kept.words ≡ word_bytes (kept_words (kept_blocks program.now))) }
    ensures owners { IfOk result (λ kept. kept.owners ≡ word_bytes (owner_words (kept_blocks program.now))) }
{
    let objects = program.objects.len() as u16;
    let mut kept = Kept {
        words: Items::new(alloc),
        owners: Items::new(alloc),
    };
    let mut entry = 15_945;
    let mut number = 0;
    for place in program.places.as_slice() {
        kept.add(alloc, world, program, number, place.kind, entry)?;
        entry += place_words(place.kind, objects);
        number += 1;
    }
    Ok(kept)
}

// The areas that every story has, with what is kept: each of its two parts has a thousand bytes.
fn kept_table(alloc: Global, kept: Kept) -> Result<Table, AllocError>
    requires few { length kept.words ≤ 1000 }
    requires same { length kept.owners ≡ length kept.words }
    ensures { (bs : List Block) → kept.words ≡ word_bytes (kept_words bs) → kept.owners ≡ word_bytes (owner_words bs) →
        IfOk result (λ table. table ≡ the_table bs) }
{
    let left = 1_000 - kept.words.len();
    let mut bytes = Items::new(alloc);
    put_zeros(alloc, &mut bytes, 28_024)?;
    bytes.append(kept.words)?;
    put_zeros(alloc, &mut bytes, left)?;
    bytes.append(kept.owners)?;
    put_zeros(alloc, &mut bytes, left)?;
    put_zeros(alloc, &mut bytes, 1_260)?;
    Ok(Table {
        bytes,
        writable: true,
    })
}

/// The areas that every story has, with what global variables start with.
pub fn areas_table(
    alloc: Global,
    world: &Option<World>,
    program: &CoreProgram,
) -> Result<Table, AllocError>
    requires sound { IsSound program.now }
    requires holds { HoldsStart world.now program.now }
    requires words { KeepsWords program.now }
    requires room { all_words (length program.now.objects) (kinds_of program.now) ≤ 4000 }
    ensures { IfOk result (λ table. table ≡ the_table (kept_blocks program.now)) }
{
    let kept = kept_of(alloc, world, program)?;
    kept_table(alloc, kept)
}
