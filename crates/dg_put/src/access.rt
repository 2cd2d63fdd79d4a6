// An access rule.
ghost use Rattle.std.specs.Prelude.{◌≡◌, map};
ghost use Rattle.dg_base.specs.Heads.{name_of};
ghost use Rattle.dg_base.specs.Tree.{parts_of};
ghost use Rattle.dg_base.specs.TreeView.{part_view};

use dg_base::{Body, Part};

/// An access rule, by the name of its predicate.
#[derive(Clone, Copy)]
pub struct Access<'a> {
    pub name: &'a [u8],
    pub head: &'a [Part],
    pub body: &'a Body,
    ghost named: { name.now ≡ name_of (parts_of (map part_view head.now)) },
}
