// What an item may not have everywhere.
ghost use Rattle.std.specs.Prelude.{◌≡◌};
ghost use Rattle.std.specs.List.{list_any};
ghost use Rattle.dg_base.specs.Walk.{mention_view, thing_at, seen, things_at};
ghost use Rattle.dg_reader.specs.Profile as spec;

use dg_base::{Mention, is_refused_name};

fn is_refused(mention: Mention<'_>) -> bool
    ensures { result ≡ list_any spec.is_refused (thing_at (mention_view mention.entry)) }
{
    match mention {
        Mention::Query(_, head) => is_refused_name(head.parts.as_slice()),
        _ => false,
    }
}

fn is_topic(mention: Mention<'_>) -> bool
    ensures { result ≡ list_any spec.is_topic (thing_at (mention_view mention.entry)) }
{
    matches!(mention, Mention::Topic)
}

/// Whether one of these is a refused name.
pub fn has_refused(mentions: &[Mention<'_>]) -> bool
    ensures { result ≡ list_any spec.is_refused (things_at (seen mentions.now)) }
{
    for mention in mentions {
        if is_refused(*mention) {
            return true;
        }
    }
    false
}

/// Whether one of these is a `*` in the place of a value.
pub fn has_topic(mentions: &[Mention<'_>]) -> bool
    ensures { result ≡ list_any spec.is_topic (things_at (seen mentions.now)) }
{
    for mention in mentions {
        if is_topic(*mention) {
            return true;
        }
    }
    false
}
