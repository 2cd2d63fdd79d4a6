// A body, made of its branches.
ghost use Rattle.std.specs.Prelude.{◌≡◌, map, IfOk};
ghost use Rattle.dg_base.specs.Tree as tree;
ghost use Rattle.dg_base.specs.TreeView.{stmt_view, body_view, branch_view};
ghost use Rattle.dg_open.specs.inside.Standing as standing;

use dg_base::{Body, Items, Stmt};
use std::alloc::AllocError;

fn branches(branches: Items<Items<Stmt>>) -> Body
    ensures { body_view result ≡ tree.branches_of (map branch_view branches) }
{
    Body { branches }
}

/// The branches behind these with this last one.
pub fn all_branches(
    mut earlier: Items<Items<Stmt>>,
    last: Items<Stmt>,
) -> Result<Items<Items<Stmt>>, AllocError>
    ensures { IfOk result (λ bs. tree.branches_of (map branch_view bs) ≡ standing.body_of (map branch_view earlier) (map stmt_view last)) }
{
    earlier.push(last)?;
    Ok(earlier)
}

/// The body of these branches and a last one.
pub fn body(earlier: Items<Items<Stmt>>, last: Items<Stmt>) -> Result<Body, AllocError>
    ensures { IfOk result (λ b. body_view b ≡ standing.body_of (map branch_view earlier) (map stmt_view last)) }
{
    Ok(branches(all_branches(earlier, last)?))
}
