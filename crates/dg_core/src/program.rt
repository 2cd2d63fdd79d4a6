// From items to the core program.
ghost use Rattle.std.specs.Prelude.{◌≡◌, ◌+◌, ◌++◌, ◌∷◌, [], ℕ, false, not, map, OnOk, IfOk};
ghost use Rattle.std.specs.List.{IsDistinct, list_any};
ghost use Rattle.std.specs.Str.{bytes_eq};
ghost use Rattle.dg_base.specs.Heads.{name_of as head_name};
ghost use Rattle.dg_base.specs.Mentions.{of_body};
ghost use Rattle.dg_base.specs.Names.{prelude_names, name_among};
ghost use Rattle.dg_base.specs.Tree.{rule};
ghost use Rattle.dg_base.specs.TreeView.{body_view, head_view, said_view, item_view};
ghost use Rattle.dg_base.specs.declared.program.PlaceKind.TheVariants.{ObjectVar};
ghost use Rattle.dg_scopes.specs.inside.View.{layouts_view};
ghost use Rattle.dg_names.specs.State.{listed, names_view};
ghost use Rattle.dg_core.specs.Bodies.{direct};
ghost use Rattle.dg_core.specs.Core as spec;
ghost use Rattle.dg_core.specs.Goals.{count_selects};
ghost use Rattle.dg_core.specs.inside.Making.{bodies_view};
ghost use Rattle.dg_core.specs.Places.{placed_of};
ghost use Rattle.dg_core.specs.Rows.{closures_in_rule};
ghost use Rattle.dg_core.specs.Variables.{layouts_in};
ghost use Rattle.dg_core.specs.inside.View.{scope_view, places_view, bare_in, before_view, rule_in, with_rule, with_rules_in, pred_names};
ghost use Rattle.dg_core.specs.inside.Waiting.{rows_kept, selects_kept, Waits, Keeps};

use crate::goals::goals_of;
use crate::places::kind_of;
use crate::rows::{Kept, all_rows, kept_of, number_at, scope_in};
use crate::scope::{Places, Scope};
use crate::terms::{number_in, terms_of};
use dg_base::{
    Body, CoreProgram, Goal, Head, Item, ItemBody, Items, Name, PRELUDE_NAMES, Place, PlaceKind,
    Pred, Rule,
};
use dg_names::Names;
use dg_scopes::{Layouts, layouts_of};
use indexmap::IndexSet;
use std::alloc::{AllocError, Global};

/// How many selects outside closures, and how many closures, stand in the items before.
#[derive(Drop)]
pub struct Before {
    pub selects: u16,
    pub closures: u16,
}

/// What comes of items: the predicates with their rules, the rules whose closures wait, and what stands before the next item.
#[derive(Drop)]
pub struct Rules<'a> {
    pub preds: Vec<Pred>,
    pub kept: Vec<Kept<'a>>,
    pub before: Before,
}

const ENTRY: &[u8] = b"(program entry point)";

// What a negated rule does behind its body.
fn failing(alloc: Global) -> Result<Items<Goal>, AllocError>
    ensures { IfOk result (λ goals. goals ≡ spec.failing) }
{
    let mut goals = Items::new(alloc);
    goals.push(Goal::Just)?;
    goals.push(Goal::Fail)?;
    Ok(goals)
}

// A rule in this scope whose body is followed by these goals, and the bodies of the closures directly in it. The number of selects grows by those
// of the body.
fn rule_of<'a>(
    alloc: Global,
    scope: &Scope<'_>,
    sites: &mut u16,
    head: &'a Head,
    body: &'a Body,
    behind: Items<Goal>,
) -> Result<(Rule, Items<&'a Body>), AllocError>
    ensures rule { IfOk result (λ made. made.0 ≡ rule_in (scope_view scope.now) sites.old (head_view head.now) (body_view body.now) behind) }
    ensures found { IfOk result (λ made. bodies_view made.1 ≡ direct (closures_in_rule (head_view head.now) (body_view body.now))) }
    ensures sites { OnOk result (sites.new ≡ sites.old + count_selects (of_body false (body_view body.now))) }
{
    let mut found = Items::new(alloc);
    let terms = terms_of(alloc, scope, &mut found, head)?;
    let (mut goals, found) = goals_of(alloc, scope, sites, found, body)?;
    goals.append(behind)?;
    let rule = Rule {
        vars: scope.variables.len().min(65535) as u16,
        head: terms,
        body: goals,
    };
    Ok((rule, found))
}

// A rule with these layouts, and its closures, which wait. What stands before an item comes to stand before the next one.
fn rule_with<'a>(
    alloc: Global,
    around: &Scope<'a>,
    before: &mut Before,
    layouts: Layouts<'a>,
    head: &'a Head,
    body: &'a Body,
    behind: Items<Goal>,
) -> Result<(Rule, Kept<'a>), AllocError>
    requires { layouts_view layouts ≡ layouts_in (head_view head.now) (body_view body.now) }
    ensures rule { IfOk result (λ made. made.0
        ≡ spec.rule_of (scope_view around.now) (before_view before.old) (head_view head.now) (body_view body.now) behind) }
    ensures kept { IfOk result (λ made. Waits (scope_view around.now) before.old.closures (head_view head.now) (body_view body.now) made.1) }
    ensures before { OnOk result (before_view before.new ≡ spec.behind_item (before_view before.old) (rule (head_view head.now) (body_view body.now))) }
{
    let Layouts {
        variables,
        places,
        closures,
    } = layouts;
    let first = before.closures;
    let scope = scope_in(alloc, around, first, variables, places.as_slice())?;
    let (rule, found) = rule_of(alloc, &scope, &mut before.selects, head, body, behind)?;
    before.closures = number_at(first, closures.len())?;
    let kept = kept_of(alloc, first, &scope, closures, places.as_slice(), found)?;
    Ok((rule, kept))
}

// Adds a rule to the predicate of its head.
fn add_rule(
    alloc: Global,
    names: &Names,
    preds: &mut Vec<Pred>,
    head: &Head,
    rule: Rule,
) -> Result<(), AllocError>
    requires named { pred_names preds.old.items ≡ (names_view names.now).preds }
    requires distinct { IsDistinct bytes_eq (names_view names.now).preds }
    ensures { OnOk result (preds.new.items ≡ map (with_rule (head_name (head_view head.now)) rule) preds.old.items) }
{
    if let Some(at) = names.find(alloc, head)? {
        let pred = &mut preds[at as usize];
        pred.rules.push(rule)?;
    }
    Ok(())
}

// Adds a rule with these layouts.
fn add_with<'a>(
    alloc: Global,
    around: &Scope<'a>,
    rules: &mut Rules<'a>,
    layouts: Layouts<'a>,
    head: &'a Head,
    body: &'a Body,
    behind: Items<Goal>,
) -> Result<(), AllocError>
    requires layouts { layouts_view layouts ≡ layouts_in (head_view head.now) (body_view body.now) }
    requires named { pred_names rules.old.preds.items ≡ (scope_view around.now).names.preds }
    requires distinct { IsDistinct bytes_eq (scope_view around.now).names.preds }
    ensures preds { OnOk result (rules.new.preds.items ≡ map (with_rule (head_name (head_view head.now))
        (spec.rule_of (scope_view around.now) (before_view rules.old.before) (head_view head.now) (body_view body.now) behind)) rules.old.preds.items) }
    ensures kept { OnOk result (Keeps (scope_view around.now) rules.old.before.closures (rule (head_view head.now) (body_view body.now))
        rules.old.kept.items rules.new.kept.items) }
    ensures before { OnOk result (before_view rules.new.before
        ≡ spec.behind_item (before_view rules.old.before) (rule (head_view head.now) (body_view body.now))) }
{
    let (rule, kept) = rule_with(
        alloc,
        around,
        &mut rules.before,
        layouts,
        head,
        body,
        behind,
    )?;
    rules.kept.push(kept)?;
    add_rule(alloc, around.names, &mut rules.preds, head, rule)
}

// Adds the rule of an item, where it has one.
fn add_item<'a>(
    alloc: Global,
    around: &Scope<'a>,
    rules: &mut Rules<'a>,
    said: &'a ItemBody,
) -> Result<(), AllocError>
    requires named { pred_names rules.old.preds.items ≡ (scope_view around.now).names.preds }
    requires distinct { IsDistinct bytes_eq (scope_view around.now).names.preds }
    ensures preds { OnOk result (rules.new.preds.items
        ≡ map (with_rules_in (scope_view around.now) (before_view rules.old.before) (said_view said.now)) rules.old.preds.items) }
    ensures kept { OnOk result (Keeps (scope_view around.now) rules.old.before.closures (said_view said.now) rules.old.kept.items rules.new.kept.items) }
    ensures before { OnOk result (before_view rules.new.before ≡ spec.behind_item (before_view rules.old.before) (said_view said.now)) }
{
    match said {
        ItemBody::Rule(head, body) => {
            let layouts = layouts_of(alloc, said)?;
            add_with(alloc, around, rules, layouts, head, body, Items::new(alloc))
        }
        ItemBody::Deny(head, body) => {
            let layouts = layouts_of(alloc, said)?;
            add_with(alloc, around, rules, layouts, head, body, failing(alloc)?)
        }
        ItemBody::Topic(_) => Ok(()),
        ItemBody::Access(_, _) => Ok(()),
        ItemBody::Variable(_) => Ok(()),
    }
}

fn is_among(names: &[&str], name: &[u8]) -> bool
    ensures { result ≡ list_any (λ known. bytes_eq known.now name.now) names.now }
{
    for known in names {
        if known.as_bytes() == name {
            return true;
        }
    }
    false
}

// Whether a name is none of the prelude's.
fn is_from_source(name: &[u8]) -> bool
    ensures { result ≡ not (name_among name.now prelude_names) }
{
    !is_among(&PRELUDE_NAMES, name)
}

// The predicates without their rules.
fn bare_preds(alloc: Global, around: &Scope<'_>) -> Result<Vec<Pred>, AllocError>
    ensures bare { IfOk result (λ preds. preds.items ≡ map (spec.pred_of (scope_view around.now) []) (scope_view around.now).names.preds) }
    ensures distinct { IfOk result (λ _. IsDistinct bytes_eq (scope_view around.now).names.preds) }
{
    let mut preds = Vec::new(alloc);
    for name in around.names.preds.as_slice() {
        preds.push(Pred {
            name: Items::from_slice(alloc, name.as_slice())?,
            from_source: is_from_source(name.as_slice()),
            rules: Items::new(alloc),
        })?;
    }
    Ok(preds)
}

// The rules of items, in the order of the source.
fn rules_of<'a>(
    alloc: Global,
    around: &Scope<'a>,
    items: &'a [Item],
) -> Result<Rules<'a>, AllocError>
    ensures preds { IfOk result (λ all. all.preds.items ≡ map (spec.pred_of (scope_view around.now) (map item_view items.now))
        (scope_view around.now).names.preds) }
    ensures named { IfOk result (λ all. pred_names all.preds.items ≡ (scope_view around.now).names.preds) }
    ensures kept { IfOk result (λ all. (n : ℕ) → rows_kept (scope_view around.now) n all.kept.items
        ≡ spec.rows_from (scope_view around.now) (record { selects = n; closures = 0 }) (map item_view items.now)) }
    ensures inner { IfOk result (λ all. selects_kept all.kept.items ≡ spec.inner_selects (map item_view items.now)) }
    ensures sites { IfOk result (λ all. all.before.selects ≡ spec.all_selects (map item_view items.now)) }
{
    let mut rules = Rules {
        preds: bare_preds(alloc, around)?,
        kept: Vec::new(alloc),
        before: Before {
            selects: 0,
            closures: 0,
        },
    };
    for item in items {
        add_item(alloc, around, &mut rules, &item.body)?;
    }
    Ok(rules)
}

fn copied(alloc: Global, names: &IndexSet<Vec<u8>>) -> Result<Items<Name>, AllocError>
    ensures { IfOk result (λ copies. copies ≡ listed names.now) }
{
    let mut copies = Items::new(alloc);
    for name in names.as_slice() {
        copies.push(Items::from_slice(alloc, name.as_slice())?)?;
    }
    Ok(copies)
}

// The places of these names, in each of which nothing starts set.
fn bare_places(alloc: Global, places: &Places) -> Result<Items<Place>, AllocError>
    ensures { IfOk result (λ bare. bare ≡ map (bare_in (places_view places.now).declared) (places_view places.now).names) }
{
    let mut bare = Items::new(alloc);
    for name in places.names.as_slice() {
        bare.push(Place {
            kind: kind_of(places, name.as_slice()),
            start: Items::new(alloc),
        })?;
    }
    Ok(bare)
}

// The same, with the place for what a search answers behind them.
fn places_with_answers(alloc: Global, places: &Places) -> Result<Items<Place>, AllocError>
    ensures { IfOk result (λ all. all
        ≡ map (bare_in (places_view places.now).declared) (places_view places.now).names ++ record { kind = ObjectVar; start = [] } ∷ []) }
{
    let mut all = bare_places(alloc, places)?;
    all.push(Place {
        kind: PlaceKind::ObjectVar,
        start: Items::new(alloc),
    })?;
    Ok(all)
}

/// The program that is searched for how the places of a tree start.
pub fn initial(
    alloc: Global,
    names: &Names,
    places: &Places,
    items: &[Item],
) -> Result<CoreProgram, AllocError>
    requires { places_view places.now ≡ placed_of (map item_view items.now) }
    ensures { IfOk result (λ core. core ≡ spec.initial_core (names_view names.now) (map item_view items.now)) }
{
    let around = Scope {
        names,
        places,
        variables: Vec::new(alloc),
        closures: Vec::new(alloc),
    };
    let Rules {
        preds,
        kept,
        before,
    } = rules_of(alloc, &around, items)?;
    let mut sites = before.selects;
    let closures = all_rows(alloc, &around, &mut sites, kept)?;
    Ok(CoreProgram {
        preds: Items::from_vec(preds),
        closures,
        places: places_with_answers(alloc, places)?,
        objects: copied(alloc, &names.objects)?,
        words: copied(alloc, &names.words)?,
        sites,
        entry: number_in(&names.preds, ENTRY),
    })
}
