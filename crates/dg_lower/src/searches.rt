// How places start by the rules of their predicates: each object is asked of, in order, by a search.
ghost use Rattle.std.specs.Prelude.{◌≡◌, IfOk, slice_get};
ghost use Rattle.dg_base.specs.Goals.{has_rule};
ghost use Rattle.dg_base.specs.Sound.{IsSound};
ghost use Rattle.dg_interp.specs.Asking.{value_of_simple, initial_of};
ghost use Rattle.dg_meaning.specs.Facts.{takes};
ghost use Rattle.dg_meaning.specs.Moves.{rules_of};
ghost use Rattle.dg_lower.specs.Outcome.{outcome_of};
ghost use Rattle.dg_lower.specs.Starts as spec;
ghost use Rattle.dg_lower.specs.inside.Adding.{Adds};

use dg_base::{CoreProgram, Items, Kind, PlaceKind, Simple, Term};
use dg_interp::{Asker, Quiet};
use std::alloc::AllocError;

// Whether a value is a number of the language, a word or an object of the program, or the empty list.
fn is_known(program: &CoreProgram, value: Simple) -> bool
    ensures { result ≡ spec.is_known program.now (value_of_simple value) }
{
    match value {
        Simple::Num(number) => number < 16384,
        Simple::Word(word) => usize::from(word) < program.words.len(),
        Simple::Object(object) => usize::from(object) < program.objects.len(),
        Simple::Nil => true,
    }
}

fn takes(kind: PlaceKind, value: Simple) -> bool
    ensures { result ≡ takes kind (value_of_simple value) }
{
    match kind {
        PlaceKind::Parent => matches!(value, Simple::Object(_)),
        _ => true,
    }
}

fn term_of(value: Simple) -> Term
    ensures { result ≡ spec.known_term (value_of_simple value) }
{
    match value {
        Simple::Num(number) => Term::Num(number),
        Simple::Word(word) => Term::Word(word),
        Simple::Object(object) => Term::Object(object),
        Simple::Nil => Term::Nil,
    }
}

// Adds what starts of an object by its value, or answers why it can't start.
fn add_value(
    program: &CoreProgram,
    starts: &mut Items<(u16, Term)>,
    kind: PlaceKind,
    object: u16,
    value: Simple,
) -> Result<Option<Kind>, AllocError>
    ensures { IfOk result (λ fault. Adds (spec.value_by program.now kind object (value_of_simple value)) starts.old fault starts.new) }
{
    if !(is_known(program, value) && takes(kind, value)) {
        return Ok(Some(Kind::BadInitial));
    }
    starts.push((object, term_of(value)))?;
    Ok(None)
}

// Adds what starts of an object by what came of its search, or answers why it can't start.
fn add_start(
    program: &CoreProgram,
    starts: &mut Items<(u16, Term)>,
    kind: PlaceKind,
    object: u16,
    outcome: Quiet,
) -> Result<Option<Kind>, AllocError>
    ensures { IfOk result (λ fault. Adds (spec.start_by program.now kind object (initial_of outcome)) starts.old fault starts.new) }
{
    match outcome {
        Quiet::TooLong => Ok(Some(Kind::InitialTooLong)),
        Quiet::Unset => Ok(None),
        Quiet::Set => {
            starts.push((object, Term::Nil))?;
            Ok(None)
        }
        Quiet::Value(value) => add_value(program, starts, kind, object, value),
        Quiet::Other => Ok(Some(Kind::BadInitial)),
    }
}

fn asked_object(kind: PlaceKind, object: u16) -> Option<u16>
    ensures { result ≡ spec.asked_object kind object }
{
    match kind {
        PlaceKind::Flag | PlaceKind::Global => None,
        PlaceKind::ObjectFlag | PlaceKind::ObjectVar | PlaceKind::Parent => Some(object),
    }
}

fn has_values(kind: PlaceKind) -> bool
    ensures { result ≡ spec.has_values kind }
{
    match kind {
        PlaceKind::ObjectVar | PlaceKind::Parent => true,
        PlaceKind::Flag | PlaceKind::ObjectFlag | PlaceKind::Global => false,
    }
}

// Adds what starts of an object, or answers why it can't start.
fn ask(
    asker: &mut Asker<'_>,
    program: &CoreProgram,
    starts: &mut Items<(u16, Term)>,
    kind: PlaceKind,
    pred: u16,
    object: u16,
) -> Result<Option<Kind>, AllocError>
    requires { asker.old ≡ program.now }
    ensures starts { IfOk result (λ fault.
        Adds (spec.start_by program.now kind object (outcome_of program.now (spec.question kind pred object))) starts.old fault starts.new) }
    ensures same { asker.new ≡ asker.old }
{
    let outcome = asker.ask_quiet(pred, asked_object(kind, object), has_values(kind))?;
    add_start(program, starts, kind, object, outcome)
}

// The same of so many objects, up to the first that can't start.
fn ask_all(
    asker: &mut Asker<'_>,
    program: &CoreProgram,
    starts: &mut Items<(u16, Term)>,
    kind: PlaceKind,
    pred: u16,
    count: u16,
) -> Result<Option<Kind>, AllocError>
    requires { asker.old ≡ program.now }
    ensures starts { IfOk result (λ fault. Adds (spec.starts_from program.now kind pred 0 count) starts.old fault starts.new) }
    ensures same { asker.new ≡ asker.old }
{
    for object in 0..count {
        if let Some(fault) = ask(asker, program, starts, kind, pred, object)? {
            return Ok(Some(fault));
        }
    }
    Ok(None)
}

// How many objects a place of this kind is asked of.
fn asked_of(program: &CoreProgram, kind: PlaceKind) -> u16
    requires { IsSound program.now }
    ensures { result ≡ spec.asked_of program.now kind }
{
    match kind {
        PlaceKind::Flag => 1,
        _ => program.objects.len() as u16,
    }
}

fn has_rules(program: &CoreProgram, at: usize) -> bool
    ensures { result ≡ has_rule (rules_of (slice_get program.now.preds at)) }
{
    match program.preds.get(at) {
        Some(pred) => !pred.rules.is_empty(),
        None => false,
    }
}

/// Adds what starts by the rules of the predicate of this number, where there is one, or answers why that can't start.
pub fn add_searched(
    asker: &mut Asker<'_>,
    program: &CoreProgram,
    starts: &mut Items<(u16, Term)>,
    kind: PlaceKind,
    at: Option<usize>,
) -> Result<Option<Kind>, AllocError>
    requires program { asker.old ≡ program.now }
    requires sound { IsSound program.now }
    ensures starts { IfOk result (λ fault. Adds (spec.searched program.now kind at) starts.old fault starts.new) }
    ensures same { asker.new ≡ asker.old }
{
    let Some(pred) = at else {
        return Ok(None);
    };
    if !has_rules(program, pred) {
        return Ok(None);
    }
    ask_all(
        asker,
        program,
        starts,
        kind,
        pred as u16,
        asked_of(program, kind),
    )
}
