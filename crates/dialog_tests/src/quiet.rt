// Which predicates of a source are quiet.
use crate::checks::same;
use crate::programs::program_of;
use dg_base::Pred;
use dg_core::let_go;
use dg_quiet::quiet_preds;
use std::alloc::{AllocError, Global};
use std::test::Fail;

// The first predicate is a flag, which changes.
const SOURCE: &[u8] = b"(door is open)
(there 1)
(there $X) (back $X)
(back $X) (there $X)
(says) Hello.
(asks) (door is open)
(shuts) (now) ~(door is open)
(facts 1)
(facts 2)
(program entry point) (there 1) (facts 2) (says) (asks) (shuts)
";

// The names of those predicates of the source that are quiet.
fn quiet_names(alloc: Global, preds: &[Pred]) -> Result<Vec<u8>, AllocError> {
    let quiet = quiet_preds(alloc, preds, &[true])?;
    let mut names = Vec::new(alloc);
    for (pred, is_quiet) in preds.iter().zip(&quiet) {
        if pred.from_source && *is_quiet {
            names.extend_from_slice(pred.name.as_slice())?;
            names.push(b' ')?;
        }
    }
    Ok(names)
}

#[test]
fn predicates_that_ask_quiet_ones_alone_are_quiet(rt: HostRuntime) -> Result<(), Fail> {
    let program = program_of(rt.alloc(), SOURCE)?;
    let names = quiet_names(rt.alloc(), program.preds.as_slice());
    let_go(rt.alloc(), program);
    let wanted = b"(there $) (back $) (facts $) ".as_slice();
    same(&rt, &names?.as_slice(), &wanted, "quiet predicates");
    Ok(())
}
