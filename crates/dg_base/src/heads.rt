// Writes the names of predicates, and compares them.
ghost use Rattle.std.specs.Prelude.{◌≡◌, ◌++◌, ◌∷◌, [], map, OnOk, IfOk};
ghost use Rattle.std.specs.Option.{option_map};
ghost use Rattle.std.specs.Str.{bytes_eq};
ghost use Rattle.dg_base.specs.Heads as spec;
ghost use Rattle.dg_base.specs.Tree.{parts_of};
ghost use Rattle.dg_base.specs.TreeView.{part_view, head_view};

use crate::program::Name;
use crate::tree::{Head, Part};
use sqlite_items::Items;
use std::alloc::{AllocError, Global};

fn is_special(c: u8) -> bool
    ensures { result ≡ spec.is_special c }
{
    b"#$@~*|\\()[]{}".contains(&c)
}

// Adds a word with a backslash before each special character.
fn push_word(name: &mut Vec<u8>, word: &[u8]) -> Result<(), AllocError>
    ensures { OnOk result (name.new.items ≡ name.old.items ++ spec.escaped word.now) }
{
    for c in word {
        if is_special(*c) {
            name.push(b'\\')?;
        }
        name.push(*c)?;
    }
    Ok(())
}

fn push_part(name: &mut Vec<u8>, part: &Part) -> Result<(), AllocError>
    ensures { OnOk result (name.new.items ≡ name.old.items ++ spec.part_name (part_view part.now)) }
{
    match part {
        Part::Word(word) => push_word(name, word.as_slice()),
        Part::Value(_) => {
            name.push(b'$')?;
            Ok(())
        }
    }
}

// Adds parts behind another one.
fn push_parts(name: &mut Vec<u8>, parts: &[Part]) -> Result<(), AllocError>
    ensures { OnOk result (name.new.items ≡ name.old.items ++ spec.parts_behind (parts_of (map part_view parts.now))) }
{
    for part in parts {
        name.push(b' ')?;
        push_part(name, part)?;
    }
    Ok(())
}

/// The name of these parts: the words, and `$` for each place, in parentheses.
pub fn name_of_parts(alloc: Global, parts: &[Part]) -> Result<Name, AllocError>
    ensures { IfOk result (λ name. name ≡ spec.name_of (parts_of (map part_view parts.now))) }
{
    let mut name = vec![in alloc; b'(']?;
    if let [first, others @ ..] = parts {
        push_part(&mut name, first)?;
        push_parts(&mut name, others)?;
    }
    name.push(b')')?;
    Ok(Items::from_vec(name))
}

/// The name of a head: its words, and `$` for each place, in parentheses.
pub fn name_of(alloc: Global, head: &Head) -> Result<Name, AllocError>
    ensures { IfOk result (λ name. name ≡ spec.name_of (head_view head.now)) }
{
    name_of_parts(alloc, head.parts.as_slice())
}

// What stands behind this byte.
fn behind_byte(name: &[u8], byte: u8) -> Option<&[u8]>
    ensures { option_map (λ rest. rest.now) result ≡ spec.behind (byte ∷ []) name.now }
{
    match name {
        [first, rest @ ..] if *first == byte => Some(rest),
        _ => None,
    }
}

// What stands behind this letter of a word, which has a backslash before it where it is special.
fn behind_letter(name: &[u8], letter: u8) -> Option<&[u8]>
    ensures { option_map (λ rest. rest.now) result ≡ spec.behind (spec.escaped (letter ∷ [])) name.now }
{
    if is_special(letter) {
        behind_byte(behind_byte(name, b'\\')?, letter)
    } else {
        behind_byte(name, letter)
    }
}

fn behind_word<'a>(name: &'a [u8], word: &[u8]) -> Option<&'a [u8]>
    ensures { option_map (λ rest. rest.now) result ≡ spec.behind (spec.escaped word.now) name.now }
{
    let mut rest = name;
    for letter in word {
        rest = behind_letter(rest, *letter)?;
    }
    Some(rest)
}

fn behind_part<'a>(name: &'a [u8], part: &Part) -> Option<&'a [u8]>
    ensures { option_map (λ rest. rest.now) result ≡ spec.behind (spec.part_name (part_view part.now)) name.now }
{
    match part {
        Part::Word(word) => behind_word(name, word.as_slice()),
        Part::Value(_) => behind_byte(name, b'$'),
    }
}

// What stands behind parts that follow another one.
fn behind_parts<'a>(name: &'a [u8], parts: &[Part]) -> Option<&'a [u8]>
    ensures { option_map (λ rest. rest.now) result ≡ spec.behind (spec.parts_behind (parts_of (map part_view parts.now))) name.now }
{
    let mut rest = name;
    for part in parts {
        rest = behind_part(behind_byte(rest, b' ')?, part)?;
    }
    Some(rest)
}

// What stands behind the name of these parts, but for the parenthesis at its end.
fn behind_open<'a>(name: &'a [u8], parts: &[Part]) -> Option<&'a [u8]>
    ensures { option_map (λ rest. rest.now) result ≡ spec.behind (spec.open_name (parts_of (map part_view parts.now))) name.now }
{
    let inner = behind_byte(name, b'(')?;
    match parts {
        [] => Some(inner),
        [first, others @ ..] => behind_parts(behind_part(inner, first)?, others),
    }
}

fn is_close(rest: Option<&[u8]>) -> bool
    ensures { result ≡ spec.is_close (option_map (λ rest. rest.now) rest.entry) }
{
    match rest {
        Some(rest) => rest == b")".as_slice(),
        None => false,
    }
}

/// Whether this is the name of these parts.
pub fn is_named(parts: &[Part], name: &[u8]) -> bool
    ensures { result ≡ bytes_eq name.now (spec.name_of (parts_of (map part_view parts.now))) }
{
    is_close(behind_open(name, parts))
}
