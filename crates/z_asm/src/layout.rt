// Where everything stands in a story.
ghost use Rattle.std.specs.Prelude.{◌≡◌, ◌+◌, ◌<◌, ◌≤◌, ◌^◌, ◌++◌, ◌∷◌, [], map, length, true, false, IfOk, OnOk, IsErrOf, MatchOption, Some, None, Ok, Err};
ghost use Rattle.z_asm.specs.declared.layout.AsmFault.TheVariants.{OutOfMemory};
ghost use Rattle.z_asm.specs.Layout.{code_size, aligned, stand_from, end_from, packed_address, table_bytes, table_places};
ghost use Rattle.z_asm.specs.Plan.{ArePlaced, IsPlan};
ghost use Rattle.z_asm.specs.Story.{image_base, dictionary_of, code_start, front_of, routines_from, image_end, string_sizes, strings_of, IsTooLarge};

use crate::image::{Code, Image, Table};
use crate::sizes::size_of_code;
use sqlite_items::Items;
use std::alloc::{AllocError, Global};
use thiserror::Error;

/// Why there is no story.
#[derive(Clone, Copy, Debug, PartialEq, Eq, Error)]
pub enum AsmFault {
    #[error("the story is too large")]
    TooLarge,
    #[error("out of memory")]
    OutOfMemory,
}

impl From<AllocError> for AsmFault {
    ghost from_gives = { λ _ fault. fault ≡ OutOfMemory };

    fn from(_error: AllocError) -> AsmFault {
        AsmFault::OutOfMemory
    }
}

/// Packed addresses of routines and texts, and addresses of tables, by their numbers.
#[derive(Drop)]
pub struct Addresses {
    pub routines: Items<u16>,
    pub tables: Items<u16>,
    pub texts: Items<u16>,
}

/// Where everything stands, the dictionary's address, the end of the strings, behind which the
/// routines stand, and the end before it is filled up.
#[derive(Drop)]
pub struct Plan {
    pub addresses: Addresses,
    pub base: u16,
    pub dictionary: u16,
    pub routines_from: usize,
    pub end: usize,
}

/// Where the tables begin, behind the header, the globals and the object table.
const TABLES_FROM: usize = 670;

/// The last place at which a dictionary fits into the readable part.
const DICTIONARY_MOST: usize = 65_528;

/// The last end of a story.
const END_MOST: usize = 524_280;

/// The next multiple of 8.
pub(crate) fn aligned(at: usize) -> usize
    requires { at < 2 ^ 63 }
    ensures { result ≡ aligned at }
{
    at + (8 - at % 8) % 8
}

// The end of the tables of one kind that begin at a place.
fn end_of_tables(tables: &[Table], writable: bool, at: usize) -> Option<usize>
    requires { at ≤ 65528 }
    ensures { MatchOption result (65528 < at + length (table_bytes writable tables.now))
        (λ end. (end ≡ at + length (table_bytes writable tables.now)) × (end ≤ 65528)) }
{
    let mut end = at;
    for table in tables {
        if table.writable == writable {
            if table.bytes.len() > DICTIONARY_MOST - end {
                return None;
            }
            end += table.bytes.len();
        }
    }
    Some(end)
}

fn place_tables(
    alloc: Global,
    tables: &[Table],
    from: usize,
    base: usize,
) -> Result<Items<u16>, AllocError>
    requires writable { from + length (table_bytes true tables.now) ≤ 65528 }
    requires fixed { base + length (table_bytes false tables.now) ≤ 65528 }
    ensures { IfOk result (λ places. places ≡ table_places from base tables.now) }
{
    let mut places = Items::new(alloc);
    let mut here = from;
    let mut there = base;
    for table in tables {
        if table.writable {
            places.push(here as u16)?;
            here += table.bytes.len();
        } else {
            places.push(there as u16)?;
            there += table.bytes.len();
        }
    }
    Ok(places)
}

// The packed address of a part of so many bytes behind a place, and its end, if it isn't too far.
fn place_part(at: usize, size: usize) -> Option<(u16, usize)>
    requires { at ≤ 524280 }
    ensures { MatchOption result (524280 < aligned at + size) (λ p. (p.0 ≡ packed_address (aligned at)) × (p.1 ≡ aligned at + size) × (p.1 ≤ 524280)) }
{
    let start = aligned(at);
    if size > END_MOST - start {
        return None;
    }
    Some(((start / 8) as u16, start + size))
}

fn place_texts(
    alloc: Global,
    from: usize,
    strings: &[Items<u8>],
) -> Result<(Items<u16>, usize), AsmFault>
    requires { from ≤ 524280 }
    ensures ok { IfOk result (λ p. ArePlaced from (map length strings.now) p.0 p.1) }
    ensures large { IsErrOf result AsmFault.TooLarge → 524280 < end_from from (map length strings.now) }
{
    let mut places = Items::new(alloc);
    let mut end = from;
    for string in strings {
        let Some((place, behind)) = place_part(end, string.len()) else {
            return Err(AsmFault::TooLarge);
        };
        places.push(place)?;
        end = behind;
    }
    Ok((places, end))
}

fn place_codes(alloc: Global, from: usize, image: &Image) -> Result<(Items<u16>, usize), AsmFault>
    requires { from ≤ 524280 }
    ensures ok { IfOk result (λ p. ArePlaced from (map code_size image.now.routines) p.0 p.1) }
    ensures large { IsErrOf result AsmFault.TooLarge → 524280 < end_from from (map code_size image.now.routines) }
{
    let mut places = Items::new(alloc);
    let mut end = from;
    for code in image.routines.as_slice() {
        let Some((place, behind)) = place_part(end, size_of_code(code)) else {
            return Err(AsmFault::TooLarge);
        };
        places.push(place)?;
        end = behind;
    }
    Ok((places, end))
}

/// Where everything stands that an image has, when its strings are these.
#[tactic(auto, using(crate::proofs::Layouts::end_most))]
pub fn lay_out(alloc: Global, image: &Image, strings: &[Items<u8>]) -> Result<Plan, AsmFault>
    requires { strings.now ≡ strings_of image.now }
    ensures ok { IfOk result (λ p. IsPlan image.now p) }
    ensures large { IsErrOf result AsmFault.TooLarge → IsTooLarge image.now }
{
    let tables = image.tables.as_slice();
    let base = end_of_tables(tables, true, TABLES_FROM).ok_or(AsmFault::TooLarge)?;
    let dictionary = end_of_tables(tables, false, base).ok_or(AsmFault::TooLarge)?;
    let tables = place_tables(alloc, tables, TABLES_FROM, base)?;
    let (texts, routines_from) = place_texts(alloc, dictionary + 8, strings)?;
    let (routines, end) = place_codes(alloc, routines_from, image)?;
    Ok(Plan {
        addresses: Addresses {
            routines,
            tables,
            texts,
        },
        base: base as u16,
        dictionary: dictionary as u16,
        routines_from,
        end,
    })
}
