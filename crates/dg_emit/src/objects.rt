// The routines of the names of objects.
ghost use Rattle.std.specs.Prelude.{◌≡◌, ◌+◌, ◌*◌, ◌<◌, ◌≤◌, ◌++◌, ◌∷◌, [], All, IfOk, OnOk, length, take, drop};
ghost use Rattle.std.specs.Str.{chars};
ghost use Rattle.dg_base.specs.Sound.{IsName};
ghost use Rattle.dg_meaning.specs.Cells.{nodes_of};
ghost use Rattle.dg_turn.specs.Terms.{AreNodes};
ghost use Rattle.dg_turn.specs.Names as spec;
ghost use Rattle.dg_emit.specs.inside.Acts as inside;
ghost use Rattle.dg_turn.specs.Prints.{print_routine};

use crate::terms::Writer;
use crate::texts::{characters, end_with, put_says, put_text, text_of};
use dg_base::{Items, Name, Term};
use dg_rt::numbers::{PRINT_VALUE, SPELL};
use dg_rt::registers::{ARGS, LAST};
use std::alloc::{AllocError, Global};
use z_lang::{Act, Args, Atom, Comparison, Function, Routine, Test};

/// The leaves of a chain.
const PART: usize = 32;

// A name of more than 40 characters has a routine of its own.
fn is_long(characters: &[u16]) -> bool
    ensures { result ≡ spec.is_long characters.now }
{
    characters.len() > 40
}

// How the text ends behind a mark and a name.
fn name_end(characters: &[u16]) -> u16
    ensures { result ≡ spec.name_end characters.now }
{
    match characters {
        [] => 2,
        [.., last] => end_with(*last),
    }
}

// A name is printed.
fn name_acts(alloc: Global, characters: &[u16]) -> Result<Items<Act>, AllocError>
    ensures { IfOk result (λ acts. acts ≡ spec.name_acts characters.now) }
{
    let mut acts = Items::new(alloc);
    put_says(&mut acts, characters)?;
    acts.push(Act::Return(Atom::Num(name_end(characters))))?;
    Ok(acts)
}

// What a routine answers is answered.
fn calling_acts(alloc: Global, number: u16) -> Result<Items<Act>, AllocError>
    ensures { IfOk result (λ acts. acts ≡ spec.calling_acts number) }
{
    let acts = [
        Act::Call(
            Some(3),
            Atom::Routine(number),
            Args::Two(Atom::Var(1), Atom::Var(2)),
        ),
        Act::Return(Atom::Var(3)),
    ];
    Items::from_slice(alloc, &acts)
}

// The acts of a name, where the next one that is long has a routine of this number.
fn leaf_acts(alloc: Global, number: u16, characters: &[u16]) -> Result<Items<Act>, AllocError>
    ensures { IfOk result (λ acts. acts ≡ spec.leaf_acts number characters.now) }
{
    if is_long(characters) {
        return calling_acts(alloc, number);
    }
    name_acts(alloc, characters)
}

// The next number behind a name.
fn behind_name(number: u16, characters: &[u16]) -> u16
    requires { number < 65535 }
    ensures next { result ≡ spec.behind_name number characters.now }
    ensures few { result ≤ number + 1 }
{
    if is_long(characters) {
        return number + 1;
    }
    number
}

// The acts of names, where the next one that is long has a routine of this number.
fn name_leaves(alloc: Global, number: u16, names: &[Name]) -> Result<Items<Items<Act>>, AllocError>
    requires names { All IsName names.now }
    requires room { number + length names.now ≤ 65535 }
    ensures { IfOk result (λ leaves. leaves ≡ spec.name_leaves number names.now) }
{
    let mut leaves = Items::new(alloc);
    let mut next = number;
    for name in names {
        let characters = characters(alloc, text_of(name.as_slice()))?;
        leaves.push(leaf_acts(alloc, next, characters.as_slice())?)?;
        next = behind_name(next, characters.as_slice());
    }
    Ok(leaves)
}

// The routine of a name, if it is long.
fn put_if_long(all: &mut Items<Routine>, alloc: Global, name: &[u8]) -> Result<(), AllocError>
    requires { IsName name.now }
    ensures { OnOk result (all.new ≡ all.old ++ inside.long_one (chars name.now)) }
{
    let characters = characters(alloc, text_of(name))?;
    if !is_long(characters.as_slice()) {
        return Ok(());
    }
    let body = name_acts(alloc, characters.as_slice())?;
    all.push(Routine { locals: 3, body })
}

// The routines of long names.
#[tactic(auto, using(crate::proofs::Chains::long_step))]
fn put_long(all: &mut Items<Routine>, alloc: Global, names: &[Name]) -> Result<(), AllocError>
    requires { All IsName names.now }
    ensures { OnOk result (all.new ≡ all.old ++ spec.long_routines names.now) }
{
    for name in names {
        put_if_long(all, alloc, name.as_slice())?;
    }
    Ok(())
}

/// How a chain looks for a number: in a local, where the first leaf ends in front of a number, and each other one so many behind it.
#[derive(Clone, Copy)]
pub struct Chain {
    pub local: u8,
    pub step: u16,
    pub end: u16,
}

// Whether the number that is looked for is in front of the end of a leaf.
fn below(chain: Chain, end: u16) -> Test
    ensures { result ≡ inside.below chain.local end }
{
    Test {
        comparison: Comparison::Less,
        first: Atom::Var(chain.local),
        second: Atom::Num(end),
        answer: false,
    }
}

// The routine of a chain of leaves.
fn chain_routine(alloc: Global, chain: Chain, leaves: &[Items<Act>]) -> Result<Routine, AllocError>
    requires small { chain.step ≤ 32 }
    requires room { chain.end + 32 * length leaves.now ≤ 65535 }
    ensures { IfOk result (λ r. r ≡ spec.chain_routine chain.local chain.step chain.end leaves.now) }
{
    let mut body = Items::new(alloc);
    let mut end = chain.end;
    let mut label = 0;
    let mut left = leaves;
    while let [leaf, others @ ..] = left {
        body.push(Act::When(below(chain, end), label))?;
        body.append(Items::from_slice(alloc, leaf.as_slice())?)?;
        body.push(Act::Label(label))?;
        end += chain.step;
        label += 1;
        left = others;
    }
    body.push(Act::Return(Atom::Num(2)))?;
    Ok(Routine { locals: 3, body })
}

// The first leaves.
fn first_part(leaves: &[Items<Act>]) -> &[Items<Act>]
    ensures { result.now ≡ take 32 leaves.now }
{
    if leaves.len() <= PART {
        return leaves;
    }
    leaves.split_at(PART).0
}

// The others.
fn other_parts(leaves: &[Items<Act>]) -> &[Items<Act>]
    ensures { result.now ≡ drop 32 leaves.now }
{
    if leaves.len() <= PART {
        return &[];
    }
    leaves.split_at(PART).1
}

// The routines of the leaves of names, 32 each.
fn put_names(
    all: &mut Items<Routine>,
    alloc: Global,
    leaves: &[Items<Act>],
) -> Result<(), AllocError>
    ensures { OnOk result (all.new ≡ all.old ++ spec.chain_routines 2 0 (length leaves.now) 1 leaves.now) }
{
    let chain = Chain {
        local: 2,
        step: 1,
        end: 1,
    };
    let mut left = leaves;
    while let [_, ..] = left {
        all.push(chain_routine(alloc, chain, first_part(left))?)?;
        left = other_parts(left);
    }
    Ok(())
}

// Those of calls of them.
fn put_groups(
    all: &mut Items<Routine>,
    alloc: Global,
    leaves: &[Items<Act>],
) -> Result<(), AllocError>
    requires { length leaves.now ≤ 128 }
    ensures { OnOk result (all.new ≡ all.old ++ spec.chain_routines 1 32 (length leaves.now) 1 leaves.now) }
{
    let mut end = 1;
    let mut left = leaves;
    while let [_, ..] = left {
        let chain = Chain {
            local: 1,
            step: 1,
            end,
        };
        all.push(chain_routine(alloc, chain, first_part(left))?)?;
        end += 32;
        left = other_parts(left);
    }
    Ok(())
}

// Calls of so many routines, of which the first has a number.
fn calling_leaves(alloc: Global, number: u16, count: u16) -> Result<Items<Items<Act>>, AllocError>
    requires { number + count ≤ 65535 }
    ensures { IfOk result (λ leaves. leaves ≡ spec.calling_leaves number count) }
{
    let mut leaves = Items::new(alloc);
    let mut index = 0;
    while index < count {
        leaves.push(calling_acts(alloc, number + index)?)?;
        index += 1;
    }
    Ok(leaves)
}

// The routine that prints an object, where another finds its name.
fn object_routine(alloc: Global, find: u16) -> Result<Routine, AllocError>
    ensures { IfOk result (λ r. r ≡ spec.object_routine find) }
{
    let parts = Args::Two(Atom::Var(1), Atom::Var(2));
    let part = Atom::Num(32);
    let mut body = Items::new(alloc);
    put_text(&mut body, &[35])?;
    body.push(Act::Copy(LAST, Atom::Num(2)))?;
    body.push(Act::Compute(2, Function::Mod, Atom::Var(1), part))?;
    body.push(Act::Compute(1, Function::Div, Atom::Var(1), part))?;
    body.push(Act::Call(Some(3), Atom::Routine(find), parts))?;
    body.push(Act::Copy(LAST, Atom::Var(3)))?;
    body.push(Act::Return(Atom::Num(0)))?;
    Ok(Routine { locals: 3, body })
}

fn chains_of(leaves: u16) -> u16
    requires { leaves ≤ 4096 }
    ensures { result ≡ spec.chains_of leaves }
{
    (leaves + 31) / 32
}

/// The routines of the names of objects, of which the first has a number.
pub fn put_objects(
    alloc: Global,
    all: &mut Items<Routine>,
    number: u16,
    names: &[Name],
) -> Result<(), AllocError>
    requires names { All IsName names.now }
    requires few { length names.now ≤ 4096 }
    requires room { number + 4230 ≤ 65535 }
    ensures { OnOk result (all.new ≡ all.old ++ spec.objects_routines number names.now) }
{
    let chains = chains_of(names.len() as u16);
    let upper = chains_of(chains);
    let first = number + 2;
    let leaves = name_leaves(alloc, first + chains + upper, names)?;
    let groups = calling_leaves(alloc, first, chains)?;
    let parts = calling_leaves(alloc, first + chains, upper)?;
    let whole = Chain {
        local: 1,
        step: 32,
        end: 32,
    };
    all.push(object_routine(alloc, number + 1)?)?;
    all.push(chain_routine(alloc, whole, parts.as_slice())?)?;
    put_names(all, alloc, leaves.as_slice())?;
    put_groups(all, alloc, groups.as_slice())?;
    put_long(all, alloc, names)
}

impl Writer<'_> {
    /// The routine that prints the value of a term, an object by the routine of a number, and goes on there.
    pub fn print_routine(
        &self,
        term: &Term,
        objects: u16,
        behind: u16,
    ) -> Result<Routine, AllocError>
        requires { AreNodes self.now.program.now (nodes_of (term.now ∷ [])) }
        ensures { IfOk result (λ r. r ≡ print_routine self.now.program.now term.now 85 objects behind) }
    {
        let given = Args::Three(
            Atom::Var(ARGS),
            Atom::Routine(SPELL),
            Atom::Routine(objects),
        );
        let mut body = Items::new(self.alloc);
        self.put_terms(&mut body, ARGS, &[term])?;
        body.push(Act::Call(None, Atom::Routine(PRINT_VALUE), given))?;
        body.push(Act::Return(Atom::Routine(behind)))?;
        Ok(Routine { locals: 0, body })
    }
}
