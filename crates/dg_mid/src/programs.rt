// The register code of a program.
ghost use Rattle.std.specs.Prelude.{◌≡◌, IfOk, map};
ghost use Rattle.dg_base.specs.Sound.{IsSound};
ghost use Rattle.dg_base.specs.declared.program.ClosureBody.{ClosureBody as TheClosure};
ghost use Rattle.dg_base.specs.declared.program.CoreProgram.{CoreProgram as TheProgram};
ghost use Rattle.dg_mid.specs.Codes.{Codes};
ghost use Rattle.dg_mid.specs.Potential.{Tidy};
ghost use Rattle.dg_mid.specs.Programs.{IsMidOf};
ghost use Rattle.dg_mid.specs.Seeking.{BlocksLeave};
ghost use Rattle.dg_mid.specs.Weights.{IsLight, Weights};

use crate::code::{Code, MidProgram};
use crate::release::let_go_places;
use crate::writing::Writer;
use dg_base::{ClosureBody, CoreProgram, Items, Pred};
use std::alloc::{AllocError, Global};

// The code of rules, of the bodies of closures and of the query of an entry, and the variables that each closure captures.
fn code_of(
    alloc: Global,
    preds: Items<Pred>,
    closures: Items<ClosureBody>,
    entry: u16,
) -> Result<(Code, Items<Items<u16>>), AllocError>
    ensures codes { (p : TheProgram) → p.preds ≡ preds → p.closures ≡ closures → p.entry ≡ entry → IfOk result (λ made. Codes p made.0) }
    ensures tidy { IfOk result (λ made. Tidy made.0) }
    ensures leave { IfOk result (λ made. BlocksLeave made.0) }
    ensures light { (p : TheProgram) → p.preds ≡ preds → p.closures ≡ closures → p.entry ≡ entry →
        IfOk result (λ made. (w : Weights) → IsLight w p made.0) }
    ensures captured { IfOk result (λ made. made.1 ≡ map (λ (closure : TheClosure). closure.captured) closures) }
{
    let mut writer = Writer::start(alloc, entry)?;
    let preds = writer.preds(preds)?;
    let (closures, captured) = writer.bodies(closures)?;
    let code = Code {
        blocks: writer.blocks(),
        preds,
        closures,
    };
    Ok((code, captured))
}

/// The register code of a sound program, with its tables, which are the program's own: nothing of them is copied.
pub fn to_mid(alloc: Global, program: CoreProgram) -> Result<MidProgram, AllocError>
    requires { IsSound program }
    ensures { IfOk result (IsMidOf program) }
{
    let CoreProgram {
        preds,
        closures,
        places,
        objects,
        words,
        sites,
        entry,
    } = program;
    match code_of(alloc, preds, closures, entry) {
        Ok((code, captured)) => Ok(MidProgram {
            code,
            places,
            objects,
            words,
            captured,
            sites,
            entry,
        }),
        Err(error) => {
            let_go_places(alloc, places);
            Err(error)
        }
    }
}
