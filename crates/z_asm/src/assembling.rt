// A story, put together.
ghost use Rattle.std.specs.Prelude.{◌≡◌, ◌+◌, ◌-◌, ◌<◌, ◌≤◌, ◌^◌, ◌++◌, map, drop, length, replicate, sum, ◌%◌, IfOk, OnOk, IsErrOf};
ghost use Rattle.z_asm.specs.Header.{header_bytes};
ghost use Rattle.z_asm.specs.Layout.{code_size, aligned, spans_from, end_from, laid, table_bytes, names_at};
ghost use Rattle.z_asm.specs.Conditions.{ArePrintable, IsImage};
ghost use Rattle.z_asm.specs.inside.Filled.{AreWritable};
ghost use Rattle.z_asm.specs.Plan.{IsPlan};
ghost use Rattle.z_asm.specs.Assembled.{IsAssembled, ArePlaces};
ghost use Rattle.z_asm.specs.Story.{string_bytes, strings_of, string_part, code_part, first_ops, readable_bytes, bytes_behind, story_of, IsTooLarge};

use crate::filling::{put_code, put_ops};
use crate::header::{checksum, header};
use crate::image::{Code, Image, Table};
use crate::layout::{Addresses, AsmFault, Plan, aligned, lay_out};
use crate::sizes::size_of_code;
use sqlite_items::Items;
use std::alloc::{AllocError, Global};
use z_code::{Form, LOp, Op, Operand, Operands, Target};
use z_text::encode;

fn encoded(alloc: Global, texts: &[Items<u8>]) -> Result<Items<Items<u8>>, AllocError>
    requires { ArePrintable texts.now }
    ensures { IfOk result (λ strings. strings ≡ map string_bytes texts.now) }
{
    let mut strings = Items::new(alloc);
    for text in texts {
        let string = encode(alloc, text.as_slice())?;
        strings.push(Items::from_vec(string))?;
    }
    Ok(strings)
}

fn put_tables(out: &mut Vec<u8>, tables: &[Table], writable: bool) -> Result<(), AllocError>
    ensures { OnOk result (out.new.items ≡ out.old.items ++ table_bytes writable tables.now) }
{
    for table in tables {
        if table.writable == writable {
            out.extend_from_slice(table.bytes.as_slice())?;
        }
    }
    Ok(())
}

// Fills up to a multiple of 8.
fn pad(out: &mut Vec<u8>) -> Result<(), AllocError>
    requires { length out.old.items < 2 ^ 32 }
    ensures { OnOk result (out.new.items ≡ out.old.items ++ replicate (aligned (length out.old.items) - length out.old.items) 0) }
{
    let end = aligned(out.len());
    out.resize(end, 0)
}

fn put_strings(out: &mut Vec<u8>, strings: &[Items<u8>]) -> Result<(), AllocError>
    requires { end_from (length out.old.items) (map length strings.now) < 2 ^ 31 }
    ensures { OnOk result (out.new.items ≡ out.old.items ++ laid (length out.old.items) (map string_part strings.now) (map length strings.now)) }
{
    for string in strings {
        pad(out)?;
        out.extend_from_slice(string.as_slice())?;
    }
    Ok(())
}

fn put_codes(
    alloc: Global,
    out: &mut Vec<u8>,
    names: &Addresses,
    codes: &[Code],
) -> Result<(), AllocError>
    requires within { end_from (length out.old.items) (map code_size codes.now) < 2 ^ 31 }
    requires writable { AreWritable (names_at names.now) codes.now }
    ensures { OnOk result
        (out.new.items ≡ out.old.items ++ laid (length out.old.items) (map (code_part (names_at names.now)) codes.now) (map code_size codes.now)) }
{
    for code in codes {
        pad(out)?;
        put_code(alloc, out, names, code)?;
    }
    Ok(())
}

// The first instructions: they call routine 0, and quit.
fn first_ops() -> [LOp; 2]
    ensures { result ≡ first_ops }
{
    let nothing = Operand::Small(0);
    let operands = Operands {
        count: 1,
        first: Operand::Large(0),
        second: nothing,
        third: nothing,
        fourth: nothing,
    };
    let call = Op {
        form: Form::Short,
        number: 15,
        operands,
        store: None,
        branch: None,
        text: 0,
    };
    let quit = Op {
        form: Form::Short,
        number: 10,
        operands: Operands {
            count: 0,
            first: nothing,
            second: nothing,
            third: nothing,
            fourth: nothing,
        },
        store: None,
        branch: None,
        text: 0,
    };
    [
        LOp::Do(call, [Some(Target::Routine(0)), None, None, None], None),
        LOp::Do(quit, [None, None, None, None], None),
    ]
}

// The readable part, with zero bytes in place of the header.
fn readable(alloc: Global, image: &Image, plan: &Plan) -> Result<Vec<u8>, AllocError>
    requires image { IsImage image.now }
    requires plan { IsPlan image.now plan.now }
    ensures { IfOk result (λ out. out.items ≡ replicate 64 0 ++ readable_bytes image.now) }
{
    let mut out = Vec::new(alloc);
    out.resize(670, 0)?;
    put_tables(&mut out, image.tables.as_slice(), true)?;
    put_tables(&mut out, image.tables.as_slice(), false)?;
    out.extend_from_slice(&[0, 6, 0, 0])?;
    put_ops(&mut out, &plan.addresses, &[], &first_ops())?;
    Ok(out)
}

// All bytes of the story, with zero bytes in place of the header.
fn without_header(
    alloc: Global,
    image: &Image,
    plan: &Plan,
    strings: &[Items<u8>],
) -> Result<Vec<u8>, AllocError>
    requires image { IsImage image.now }
    requires plan { IsPlan image.now plan.now }
    requires strings { strings.now ≡ strings_of image.now }
    ensures { IfOk result (λ out. out.items ≡ replicate 64 0 ++ bytes_behind image.now) }
{
    let mut out = readable(alloc, image, plan)?;
    put_strings(&mut out, strings)?;
    put_codes(alloc, &mut out, &plan.addresses, image.routines.as_slice())?;
    pad(&mut out)?;
    Ok(out)
}

// A story whose header is zero bytes, with its header.
fn with_header(alloc: Global, bytes: &[u8], plan: &Plan) -> Result<Vec<u8>, AllocError>
    requires long { 64 ≤ length bytes.now }
    requires short { length bytes.now < 524288 }
    requires first { plan.now.dictionary + 4 < 65536 }
    ensures { IfOk result (λ story.
        story.items ≡ header_bytes (plan.now.dictionary + 4) plan.now.dictionary plan.now.base (length bytes.now) (sum (drop 64 bytes.now) % 65536) ++
        drop 64 bytes.now) }
{
    let behind = &bytes[64..];
    let header = header(plan, bytes.len(), checksum(behind));
    let mut story = Vec::from_slice(alloc, &header)?;
    story.extend_from_slice(behind)?;
    Ok(story)
}

/// The story of an image.
pub fn assemble(alloc: Global, image: &Image) -> Result<Vec<u8>, AsmFault>
    requires { IsImage image.now }
    ensures story { IfOk result (λ story. story.items ≡ story_of image.now) }
    ensures fits { IfOk result (λ _. IsTooLarge image.now → ⊥) }
    ensures large { IsErrOf result AsmFault.TooLarge → IsTooLarge image.now }
    ensures assembled { IfOk result (λ story. IsAssembled image.now story.items) }
{
    let strings = encoded(alloc, image.strings.as_slice())?;
    let plan = lay_out(alloc, image, strings.as_slice())?;
    let bytes = without_header(alloc, image, &plan, strings.as_slice())?;
    let story = with_header(alloc, bytes.as_slice(), &plan)?;
    Ok(story)
}

// Where routines begin and end that stand behind a place.
fn spans(alloc: Global, from: usize, image: &Image) -> Result<Vec<(u32, u32)>, AllocError>
    requires { end_from from (map code_size image.now.routines) ≤ 524280 }
    ensures { IfOk result (λ spans. spans.items ≡ spans_from from (map code_size image.now.routines)) }
{
    let mut places = Vec::new(alloc);
    let mut end = from;
    for code in image.routines.as_slice() {
        let start = aligned(end);
        end = start + size_of_code(code);
        places.push((start as u32, end as u32))?;
    }
    Ok(places)
}

/// The first byte of each routine in the story of an image, and the place behind its last.
pub fn places(alloc: Global, image: &Image) -> Result<Vec<(u32, u32)>, AsmFault>
    requires { IsImage image.now }
    ensures places { IfOk result (λ places. ArePlaces image.now places.items) }
    ensures fits { IfOk result (λ _. IsTooLarge image.now → ⊥) }
    ensures large { IsErrOf result AsmFault.TooLarge → IsTooLarge image.now }
{
    let strings = encoded(alloc, image.strings.as_slice())?;
    let plan = lay_out(alloc, image, strings.as_slice())?;
    let places = spans(alloc, plan.routines_from, image)?;
    Ok(places)
}
