// The story of a program.
ghost use Rattle.std.specs.Prelude.{◌≡◌, ◌<◌, ◌≤◌, ◌+◌, ◌++◌, ◌∷◌, [], None, Some, All, IfOk, OnOk, IsErrOf, length};
ghost use Rattle.dg_base.specs.Sound.{IsSound};
ghost use Rattle.dg_base.specs.declared.program.ClosureBody.{ClosureBody as TheClosure};
ghost use Rattle.dg_meaning.specs.Facts.{kinds_of};
ghost use Rattle.dg_meaning.specs.Few.{AllHoldFew, HeadsAreFew};
ghost use Rattle.dg_mid.specs.Codes.{Codes};
ghost use Rattle.dg_mid.specs.Potential.{Tidy};
ghost use Rattle.dg_mid.specs.Seeking.{BlocksLeave};
ghost use Rattle.dg_mid.specs.Weights.{IsLight, Weights};
ghost use Rattle.dg_turn.specs.Layout.{all_words};
ghost use Rattle.dg_chain.specs.Agrees.{Agrees};
ghost use Rattle.dg_emit.specs.Code.{CodeFits};
ghost use Rattle.dg_emit.specs.Numbers.{numbers_end};
ghost use Rattle.dg_emit.specs.Story.{first_number, story_routines};
ghost use Rattle.dg_fits.specs.Once.{StandOnce};
ghost use Rattle.dg_fits.specs.Sizes.{words_size};
ghost use Rattle.z_asm.specs.Assembled.{ArePlaces};
ghost use Rattle.z_asm.specs.Story.{IsTooLarge};
ghost use Rattle.z_story.specs.Parts.{AreParts, image_of};
ghost use Rattle.dg_story.specs.Refusals.{build_refusal};
ghost use Rattle.dg_story.specs.Built as spec;
ghost use Rattle.dg_story.specs.inside.Keeping.{KeepsWords};
ghost use Rattle.dg_story.specs.inside.Left.{IsLeftOf, parts_left};
ghost use Rattle.dg_story.specs.inside.Marked.{HasThose};
ghost use Rattle.dg_story.specs.inside.World.{AllAreSmall};

use crate::kept::{KEEP, areas_table, start_world};
use crate::laws::{programs_have_stories, stories_agree};
use crate::marks::{marks_of, rule_names};
use crate::refusal::{BuildFault, BuildRefusal};
use crate::refused::check;
use crate::words::words_part;
use crate::world::world_table;
use dg_base::{ClosureBody, CoreProgram, Items, Pred};
use dg_core::let_go as let_go_program;
use dg_emit::{NumberFault, outline_of, routines_alike, sites_of};
use dg_mid::{Code, MidProgram, let_go, let_go_places, to_mid};
use dg_world::World;
use std::alloc::{AllocError, Global};
use z_asm::{AsmFault, Table};
use z_lang::Routine;
use z_list::Mark;
use z_story::{Parts, Placed, build};

/// A story, how many of its routines are those of rules, and where each of these stands, in the order of predicates and of their rules.
#[derive(Drop)]
pub struct Built {
    pub story: Vec<u8>,
    pub rule_routines: u32,
    pub marks: Vec<Mark>,
}

// How many values each closure captures, a byte each.
fn captures_table(alloc: Global, closures: &[ClosureBody]) -> Result<Table, AllocError>
    requires { All (λ (c : TheClosure). length c.captured ≤ 255) closures.now }
    ensures { IfOk result (λ table. table ≡ spec.captures_table closures.now) }
{
    let mut bytes = Items::new(alloc);
    for closure in closures {
        bytes.push(closure.captured.len() as u8)?;
    }
    Ok(Table {
        bytes,
        writable: false,
    })
}

// A word of zero.
fn put_zero(bytes: &mut Items<u8>) -> Result<(), AllocError>
    ensures { OnOk result (bytes.new ≡ bytes.old ++ 0 ∷ 0 ∷ []) }
{
    bytes.push(0)?;
    bytes.push(0)
}

// What is kept of selects, and a word more.
fn sites_table(alloc: Global, code: &Code) -> Result<Table, AllocError>
    ensures { IfOk result (λ table. table ≡ spec.sites_table code.now) }
{
    let sites = sites_of(alloc, code.blocks.as_slice())?;
    let mut bytes = Items::new(alloc);
    put_zero(&mut bytes)?;
    for _site in sites.as_slice() {
        put_zero(&mut bytes)?;
    }
    Ok(Table {
        bytes,
        writable: true,
    })
}

fn tables_of(alloc: Global, program: &CoreProgram) -> Result<Items<Table>, AllocError>
    requires sound { IsSound program.now }
    requires starts { AllAreSmall program.now.places }
    requires few { words_size program.now.words ≤ 20000 }
    requires keeps { KeepsWords program.now }
    requires room { all_words (length program.now.objects) (kinds_of program.now) ≤ 4000 }
    ensures { IfOk result (λ tables. tables ≡ spec.program_tables program.now) }
{
    let world = start_world(alloc, program)?;
    let mut tables = Items::new(alloc);
    tables.push(captures_table(alloc, program.closures.as_slice())?)?;
    tables.push(words_part(alloc, program.words.as_slice())?)?;
    tables.push(areas_table(alloc, &world, program)?)?;
    tables.push(world_table(alloc, &world, program)?)?;
    Ok(tables)
}

fn routines_of(
    alloc: Global,
    program: &CoreProgram,
    code: &Code,
    keeps: bool,
) -> Result<Items<Routine>, BuildFault>
    requires { CodeFits program.now code.now }
    ensures ok { IfOk result (λ routines. routines ≡ story_routines program.now code.now keeps) }
    ensures many { IsErrOf result spec.too_large → 65535 < numbers_end first_number code.now }
{
    match dg_emit::story_routines(alloc, program, code, keeps) {
        Ok(routines) => Ok(routines),
        Err(NumberFault::TooMany) => Err(BuildFault::Refused(BuildRefusal::StoryTooLarge)),
        Err(NumberFault::Memory) => Err(BuildFault::OutOfMemory),
    }
}

// The story of parts.
fn story_of(alloc: Global, parts: Parts) -> Result<Placed, BuildFault>
    requires { AreParts parts }
    ensures ok { IfOk result (λ placed. spec.IsStoryOf parts placed.story.items) }
    ensures places { IfOk result (λ placed. ArePlaces (image_of parts) placed.places.items) }
    ensures large { IsErrOf result spec.too_large → IsTooLarge (image_of parts) }
{
    match build(alloc, parts) {
        Ok(placed) => Ok(placed),
        Err(AsmFault::TooLarge) => Err(BuildFault::Refused(BuildRefusal::StoryTooLarge)),
        Err(AsmFault::OutOfMemory) => Err(BuildFault::OutOfMemory),
    }
}

fn keeps_within(alloc: Global, program: &CoreProgram) -> Result<bool, AllocError>
    requires { IsSound program.now }
    ensures { IfOk result (λ keeps. keeps ≡ spec.keeps_within program.now) }
{
    let objects = program.objects.len() as u16;
    World::starts_within(alloc, program.places.as_slice(), objects, KEEP)
}

/// What a story takes of a program beside its code: its tables, its outline, and whether what starts keep is within its limit.
#[derive(Drop)]
pub struct Left {
    pub tables: Items<Table>,
    pub outline: CoreProgram,
    pub keeps: bool,
}

fn left_of(alloc: Global, program: &CoreProgram) -> Result<Left, AllocError>
    requires sound { IsSound program.now }
    requires starts { AllAreSmall program.now.places }
    requires few { words_size program.now.words ≤ 20000 }
    requires keeps { KeepsWords program.now }
    requires room { all_words (length program.now.objects) (kinds_of program.now) ≤ 4000 }
    ensures { IfOk result (λ left. IsLeftOf program.now left) }
{
    Ok(Left {
        tables: tables_of(alloc, program)?,
        outline: outline_of(alloc, program)?,
        keeps: keeps_within(alloc, program)?,
    })
}

fn parts_of(alloc: Global, left: Left, code: &Code) -> Result<Parts, BuildFault>
    requires { CodeFits left.outline code.now }
    ensures ok { IfOk result (λ parts. parts ≡ parts_left left code.now) }
    ensures many { IsErrOf result spec.too_large → 65535 < numbers_end first_number code.now }
{
    let routines = routines_of(alloc, &left.outline, code, left.keeps)?;
    let mut tables = left.tables;
    tables.push(sites_table(alloc, code)?)?;
    Ok(Parts {
        tables,
        strings: Items::new(alloc),
        routines,
    })
}

// The story of these tables and of the routines of some code.
fn story_with(alloc: Global, left: Left, code: &Code) -> Result<Placed, BuildFault>
    requires fits { CodeFits left.outline code.now }
    requires parts { AreParts (parts_left left code.now) }
    ensures ok { IfOk result (λ placed. spec.IsStoryOf (parts_left left code.now) placed.story.items) }
    ensures places { IfOk result (λ placed. ArePlaces (image_of (parts_left left code.now)) placed.places.items) }
    ensures large { IsErrOf result spec.too_large → spec.HasNoStory code.now (parts_left left code.now) }
{
    match parts_of(alloc, left, code) {
        Ok(parts) => story_of(alloc, parts),
        Err(fault) => Err(fault),
    }
}

fn rule_count(preds: &[Pred]) -> u32
    requires { spec.rule_count preds.now ≤ 65535 }
    ensures { result ≡ spec.rule_count preds.now }
{
    let mut count = 0;
    for pred in preds {
        count += pred.rules.len() as u32;
    }
    count
}

// A story with the marks of these rules, of which there are so many.
fn with_marks(
    alloc: Global,
    placed: Placed,
    rules: Result<Vec<(u16, u16)>, AllocError>,
    rule_routines: u32,
) -> Result<Built, BuildFault>
    requires { IfOk rules (λ names. first_number + length names.items ≤ length placed.places.items) }
    ensures ok { IfOk result (λ built. HasThose placed rules rule_routines built) }
    ensures fits { IsErrOf result spec.too_large → ⊥ }
{
    let rules = rules?;
    let marks = marks_of(alloc, &rules, &placed.places)?;
    Ok(Built {
        story: placed.story,
        rule_routines,
        marks,
    })
}

// The code of a program, without its tables.
fn code_of(alloc: Global, program: CoreProgram) -> Result<Code, AllocError>
    requires { IsSound program }
    ensures codes { IfOk result (Codes program) }
    ensures tidy { IfOk result Tidy }
    ensures leave { IfOk result BlocksLeave }
    ensures light { IfOk result (λ code. (w : Weights) → IsLight w program code) }
{
    let MidProgram {
        code,
        places,
        objects: _objects,
        words: _words,
        captured: _captured,
        sites: _sites,
        entry: _entry,
    } = to_mid(alloc, program)?;
    let_go_places(alloc, places);
    Ok(code)
}

// The story of a program that isn't refused.
fn build_fitting(alloc: Global, program: CoreProgram) -> Result<Built, BuildFault>
    requires sound { IsSound program }
    requires once { StandOnce program }
    requires goals { AllHoldFew 12 program }
    requires heads { HeadsAreFew 12 program }
    requires fits { build_refusal program ≡ None }
    ensures built { IfOk result (λ built. spec.IsBuilt program built) }
    ensures agrees { IfOk result (λ built. Agrees built.story.items program) }
    ensures fits { IsErrOf result spec.too_large → ⊥ }
{
    stories_agree();
    programs_have_stories();
    routines_alike();
    let left = left_of(alloc, &program);
    let rules = rule_names(alloc, program.preds.as_slice());
    let rule_routines = rule_count(program.preds.as_slice());
    let code = code_of(alloc, program)?;
    let story = match left {
        Ok(left) => story_with(alloc, left, &code),
        Err(_) => Err(BuildFault::OutOfMemory),
    };
    let_go(alloc, code);
    match story {
        Ok(placed) => with_marks(alloc, placed, rules, rule_routines),
        Err(fault) => Err(fault),
    }
}

/// The story of a program, or why it has none: what `build_refusal` says, and else want of memory.
pub fn build_story(alloc: Global, program: CoreProgram) -> Result<Built, BuildFault>
    requires sound { IsSound program }
    requires once { StandOnce program }
    requires goals { AllHoldFew 12 program }
    requires heads { HeadsAreFew 12 program }
    ensures fits { OnOk result (build_refusal program ≡ None) }
    ensures built { IfOk result (λ built. spec.IsBuilt program built) }
    ensures agrees { IfOk result (λ built. Agrees built.story.items program) }
    ensures refused { (r : BuildRefusal) → IsErrOf result (BuildFault.Refused r) → build_refusal program ≡ Some r }
{
    if let Err(fault) = check(alloc, &program) {
        let_go_program(alloc, program);
        return Err(fault);
    }
    match build_fitting(alloc, program) {
        Ok(built) => Ok(built),
        Err(_) => Err(BuildFault::OutOfMemory),
    }
}
