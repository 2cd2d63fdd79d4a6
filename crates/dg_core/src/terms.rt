// From values to terms.
ghost use Rattle.std.specs.Prelude.{◌≡◌, ◌+◌, ◌<◌, ◌++◌, ◌∷◌, [], List, map, length, position, reverse, slice_get, IfOk, OnOk};
ghost use Rattle.dg_base.specs.Tree as tree;
ghost use Rattle.std.specs.Option.{option_map};
ghost use Rattle.std.specs.Str.{bytes_eq};
ghost use Rattle.dg_base.specs.Tree.{parts_of, values_of};
ghost use Rattle.dg_base.specs.TreeView.{part_view, value_view, head_view};
ghost use Rattle.dg_names.specs.State.{seen, listed as names_listed, names_view};
ghost use Rattle.dg_core.specs.Goals as spec;
ghost use Rattle.dg_core.specs.Places.{head_values};
ghost use Rattle.dg_core.specs.Bodies.{direct, in_value, in_parts};
ghost use Rattle.dg_core.specs.inside.Making.{bodies_view, paired, last_term, term_behind, terms_behind, term_weight, terms_weight};
ghost use Rattle.dg_core.specs.inside.View.{scope_view, scope_behind, terms_made, directs, values_view, places_view, outer_in};

use crate::places::place_in;
use crate::scope::{Places, Scope};
use dg_base::{Body, Boxed, Head, Items, Part, Term, Value};
use dg_names::Names;
use indexmap::IndexSet;
use std::alloc::{AllocError, Global};

/// A place as a number, and 0 where there is none.
pub fn number_of(place: Option<usize>) -> u16
    ensures { result ≡ spec.in_16_bits (spec.place_number place) }
{
    match place {
        Some(at) if at <= 65535 => at as u16,
        _ => 0,
    }
}

/// The number of a name among names.
pub fn number_in(names: &IndexSet<Vec<u8>>, name: &[u8]) -> u16
    ensures { result ≡ spec.number_in (names_listed names.now) name.now }
{
    number_of(place_in(names, name))
}

fn place_of(names: &[&[u8]], name: &[u8]) -> Option<usize>
    ensures { result ≡ position (bytes_eq name.now) (seen names.now) }
{
    for at in 0..names.len() {
        if name == names[at] {
            return Some(at);
        }
    }
    None
}

/// The number of a name among variables.
pub fn number_among(names: &[&[u8]], name: &[u8]) -> u16
    ensures { result ≡ spec.number_in (seen names.now) name.now }
{
    number_of(place_of(names, name))
}

fn variable(scope: &Scope<'_>, name: &[u8]) -> u16
    ensures { result ≡ spec.number_in (scope_view scope.now).variables name.now }
{
    number_among(scope.variables.as_slice(), name)
}

/// What is left of a value: a value, elements in front of a tail, or a pair to be made of the last two terms.
#[derive(Clone, Copy)]
pub enum TermWork<'a> {
    Value(&'a Value),
    Values(&'a [Value], &'a Option<Boxed<Value>>),
    Pair,
}

// Makes a pair of the last two terms.
fn pair(alloc: Global, terms: &mut Items<Term>) -> Result<(), AllocError>
    ensures { OnOk result (reverse terms.new ≡ paired (reverse terms.old)) }
{
    if let Some(tail) = terms.pop() {
        if let Some(first) = terms.pop() {
            let pair = Term::Pair(Boxed::new(alloc, first)?, Boxed::new(alloc, tail)?);
            terms.push(pair)?;
        }
    }
    Ok(())
}

// The last of these terms.
fn last_of(terms: Items<Term>) -> Term
    ensures { result ≡ last_term (reverse terms) }
{
    let mut terms = terms;
    match terms.pop() {
        Some(term) => term,
        None => Term::Nil,
    }
}

fn put_list<'a>(
    left: &mut Items<TermWork<'a>>,
    values: &'a [Value],
    tail: &'a Option<Boxed<Value>>,
) -> Result<(), AllocError>
    ensures { OnOk result (left.new ≡ left.old ++ TermWork.Values values.entry tail.entry ∷ []) }
{
    left.push(TermWork::Values(values, tail))
}

fn put_value<'a>(left: &mut Items<TermWork<'a>>, value: &'a Value) -> Result<(), AllocError>
    ensures { OnOk result (left.new ≡ left.old ++ TermWork.Value value.entry ∷ []) }
{
    left.push(TermWork::Value(value))
}

// Puts on what is left a pair of a first element and the others in front of a tail.
fn put_first<'a>(
    left: &mut Items<TermWork<'a>>,
    first: &'a Value,
    others: &'a [Value],
    tail: &'a Option<Boxed<Value>>,
) -> Result<(), AllocError>
    ensures { OnOk result (left.new ≡ left.old ++ TermWork.Pair ∷ TermWork.Values others.entry tail.entry ∷ TermWork.Value first.entry ∷ []) }
{
    left.push(TermWork::Pair)?;
    left.push(TermWork::Values(others, tail))?;
    left.push(TermWork::Value(first))
}

// The closure that stands behind so many others of its scope.
fn closure_of(scope: &Scope<'_>, before: usize) -> Term
    ensures { result ≡ spec.closure_of (slice_get (scope_view scope.now).closures before) }
{
    match scope.closures.get(before) {
        Some(number) => Term::Closure(*number),
        None => Term::Nil,
    }
}

// Adds a closure's number to the terms, and its body to those that were found.
fn add_closure<'a>(
    scope: &Scope<'_>,
    found: &mut Items<&'a Body>,
    terms: &mut Items<Term>,
    body: &'a Body,
) -> Result<(), AllocError>
    ensures terms { OnOk result (terms.new ≡ terms.old ++ spec.closure_of (slice_get (scope_view scope.now).closures (length found.old)) ∷ []) }
    ensures found { OnOk result (found.new ≡ found.old ++ body.entry ∷ []) }
{
    terms.push(closure_of(scope, found.len()))?;
    found.push(body)
}

fn take_value<'a>(
    scope: &Scope<'_>,
    found: &mut Items<&'a Body>,
    left: &mut Items<TermWork<'a>>,
    terms: &mut Items<Term>,
    value: &'a Value,
) -> Result<(), AllocError>
    ensures behind { OnOk result (terms_behind (scope_view scope.now) left.new (terms_made terms.new found.new)
        ≡ terms_behind (scope_view scope.now) left.old (term_behind (scope_view scope.now) (TermWork.Value value.entry) (terms_made terms.old found.old))) }
    ensures weight { OnOk result (terms_weight left.new < term_weight (TermWork.Value value.entry) + terms_weight left.old) }
{
    match value {
        Value::List(values, tail) => {
            put_list(left, values.as_slice(), tail)?;
            Ok(())
        }
        Value::Closure(body) => {
            add_closure(scope, found, terms, body)?;
            Ok(())
        }
        Value::Num(number) => terms.push(Term::Num(*number)),
        Value::Word(word) => terms.push(Term::Word(number_in(&scope.names.words, word.as_slice()))),
        Value::Object(name) => {
            terms.push(Term::Object(number_in(&scope.names.objects, name.as_slice())))
        }
        Value::Var(name) => terms.push(Term::Var(variable(scope, name.as_slice()))),
        Value::Topic | Value::Any | Value::Query(_) | Value::Words(_) => terms.push(Term::Nil),
    }
}

fn take_values<'a>(
    left: &mut Items<TermWork<'a>>,
    terms: &mut Items<Term>,
    values: &'a [Value],
    tail: &'a Option<Boxed<Value>>,
) -> Result<(), AllocError>
    ensures behind { OnOk result ((scope : spec.Scope) (found : List tree.Body) →
        terms_behind scope left.new (record { terms = reverse terms.new; found = found })
        ≡ terms_behind scope left.old (term_behind scope (TermWork.Values values.entry tail.entry) (record { terms = reverse terms.old; found = found }))) }
    ensures weight { OnOk result (terms_weight left.new < term_weight (TermWork.Values values.entry tail.entry) + terms_weight left.old) }
{
    match values {
        [first, others @ ..] => {
            put_first(left, first, others, tail)?;
            Ok(())
        }
        [] => match tail {
            Some(tail) => {
                put_value(left, tail.get())?;
                Ok(())
            }
            None => terms.push(Term::Nil),
        },
    }
}

// Looks at one part of what is left.
fn take<'a>(
    alloc: Global,
    scope: &Scope<'_>,
    found: &mut Items<&'a Body>,
    left: &mut Items<TermWork<'a>>,
    terms: &mut Items<Term>,
    work: TermWork<'a>,
) -> Result<(), AllocError>
    ensures behind { OnOk result (terms_behind (scope_view scope.now) left.new (terms_made terms.new found.new)
        ≡ terms_behind (scope_view scope.now) left.old (term_behind (scope_view scope.now) work.entry (terms_made terms.old found.old))) }
    ensures weight { OnOk result (terms_weight left.new < term_weight work.entry + terms_weight left.old) }
{
    match work {
        TermWork::Value(value) => take_value(scope, found, left, terms, value),
        TermWork::Values(values, tail) => take_values(left, terms, values, tail),
        TermWork::Pair => pair(alloc, terms),
    }
}

/// The term of a value, so many closures being found before it. Those that stand directly in it are found as well.
pub fn term_of<'a>(
    alloc: Global,
    scope: &Scope<'_>,
    found: &mut Items<&'a Body>,
    value: &'a Value,
) -> Result<Term, AllocError>
    ensures term { IfOk result (λ term. term ≡ spec.term_of (scope_behind scope.now found.old) (value_view value.now)) }
    ensures found { OnOk result (bodies_view found.new ≡ bodies_view found.old ++ direct (in_value (value_view value.now))) }
{
    let mut left = Items::new(alloc);
    left.push(TermWork::Value(value))?;
    let mut terms = Items::new(alloc);
    while let Some(work) = left.pop() {
        take(alloc, scope, found, &mut left, &mut terms, work)?;
    }
    Ok(last_of(terms))
}

/// The values of a head, from left to right.
pub fn values_in<'a>(alloc: Global, parts: &'a [Part]) -> Result<Vec<&'a Value>, AllocError>
    ensures { IfOk result (λ values. values_view values.items ≡ head_values (parts_of (map part_view parts.now))) }
{
    let mut values = Vec::new(alloc);
    for part in parts {
        if let Part::Value(value) = part {
            values.push(value)?;
        }
    }
    Ok(values)
}

/// The terms of values.
pub fn terms_of_values<'a>(
    alloc: Global,
    scope: &Scope<'_>,
    found: &mut Items<&'a Body>,
    values: &[&'a Value],
) -> Result<Items<Term>, AllocError>
    ensures terms { IfOk result (λ terms. terms ≡ spec.terms_of_values (scope_behind scope.now found.old) (values_view values.now)) }
    ensures found { OnOk result (bodies_view found.new ≡ bodies_view found.old ++ directs (values_view values.now)) }
{
    let mut terms = Items::new(alloc);
    for value in values {
        terms.push(term_of(alloc, scope, found, value)?)?;
    }
    Ok(terms)
}

/// The terms of a head or a query.
pub fn terms_of<'a>(
    alloc: Global,
    scope: &Scope<'_>,
    found: &mut Items<&'a Body>,
    head: &'a Head,
) -> Result<Items<Term>, AllocError>
    ensures terms { IfOk result (λ terms. terms ≡ spec.terms_of (scope_behind scope.now found.old) (head_view head.now)) }
    ensures found { OnOk result (bodies_view found.new ≡ bodies_view found.old ++ direct (in_parts (head_view head.now))) }
{
    let values = values_in(alloc, head.parts.as_slice())?;
    terms_of_values(alloc, scope, found, values.as_slice())
}

/// The term of a value that stands outside rules.
pub fn outer_term(
    alloc: Global,
    names: &Names,
    places: &Places,
    value: &Value,
) -> Result<Term, AllocError>
    ensures { IfOk result (λ term. term ≡ spec.term_of (outer_in (names_view names.now) (places_view places.now).names) (value_view value.now)) }
{
    let outer = Scope {
        names,
        places,
        variables: Vec::new(alloc),
        closures: Vec::new(alloc),
    };
    term_of(alloc, &outer, &mut Items::new(alloc), value)
}
