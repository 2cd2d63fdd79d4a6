// What stands for a topic, and for a query that stands as a value.
ghost use Rattle.std.specs.Prelude.{◌≡◌, map, IfOk};
ghost use Rattle.dg_base.specs.Tree as tree;
ghost use Rattle.dg_base.specs.Tree.{parts_of};
ghost use Rattle.dg_base.specs.TreeView.{part_view, value_view, head_view};
ghost use Rattle.dg_plain.specs.Plain as spec;
ghost use Rattle.dg_plain.specs.State.{first_or, setting_view};

use crate::fresh::copied;
use crate::release::let_go_value;
use crate::setting::Setting;
use dg_base::{Head, Items, Part, Value};
use std::alloc::{AllocError, Global};

/// The topic, where there is one.
pub fn topic_value(alloc: Global, setting: Setting<'_>) -> Result<Value, AllocError>
    ensures { IfOk result (λ new. value_view new ≡ spec.topic_value (setting_view setting.entry).topic) }
{
    match setting.topic {
        Some(name) => copied(alloc, name).map(Value::Object),
        None => Ok(Value::Topic),
    }
}

// The value of a part, or else this one.
fn value_or(part: Part, other: Value) -> Value
    ensures { value_view result ≡ first_or (tree.part (part_view part) tree.no_parts) (value_view other) }
{
    match part {
        Part::Word(_) => other,
        Part::Value(value) => {
            let_go_value(other);
            value
        }
    }
}

fn no_value(alloc: Global) -> Value
    ensures { value_view result ≡ tree.plain_list tree.no_values }
{
    Value::List(Items::new(alloc), None)
}

// The first value among these parts. A head that stands as a value has one.
#[tactic(auto, using(std::proofs::lemmas::Grind::common_steps, crate::proofs::PartsLemmas::first_push, crate::proofs::PartsLemmas::first_else))]
fn first_value(alloc: Global, mut parts: Items<Part>) -> Value
    ensures { value_view result ≡ spec.first_value (parts_of (map part_view parts)) }
{
    let mut first = no_value(alloc);
    while let Some(part) = parts.pop() {
        first = value_or(part, first);
    }
    first
}

/// What stands for a query that stands as a value: its first value, but the query itself in a declaration.
pub fn standing_for(alloc: Global, setting: Setting<'_>, head: Head) -> Value
    ensures { value_view result ≡ spec.standing_for (setting_view setting.entry) (head_view head) }
{
    if setting.declares {
        return Value::Query(head);
    }
    let Head { parts } = head;
    first_value(alloc, parts)
}
