// Lists the predicates of a source, and which of them have at most one answer.
ghost use Rattle.std.specs.Prelude.{◌≡◌, ◌++◌, ℕ, List, Bool, Some, Ok, IfOk, OnOk, length, zip, flat_map};
ghost use Rattle.dg_base.specs.Shelves.{ShelfView};
ghost use Rattle.dg_base.specs.Streams.{SourceView};
ghost use Rattle.dg_single.specs.Singles.{AreSingles};
ghost use Rattle.dialog_tool.specs.Promise.{Answers};
ghost use Rattle.dialog_tool.specs.inside.Calls.{call, IsFetched};
ghost use Rattle.dialog_tool.specs.Command.{singles as singles_command};
ghost use Rattle.dialog_tool.specs.Report.{answers_word, is_listed, report_line, report};
ghost use Rattle.dg_compile.specs.Source.{Compiles};

use crate::lines::{DONE, no_memory, say_text};
use crate::reading::program_in;
use dg_base::{CoreProgram, Pred, Shelf, Sink};
use dg_core::let_go;
use dg_single::singles;
use std::alloc::{AllocError, Global};

fn answers_word(single: bool) -> &'static [u8]
    ensures { result.now ≡ answers_word single }
{
    if single { b"single " } else { b"many " }
}

fn is_listed(pred: &Pred) -> bool
    ensures { result ≡ is_listed pred.now }
{
    pred.from_source && !pred.rules.as_slice().is_empty()
}

// Puts the line of a predicate behind a text, if it is listed.
fn push_line(text: &mut Vec<u8>, pred: &Pred, single: bool) -> Result<(), AllocError>
    ensures { OnOk result (text.new.items ≡ text.old.items ++ report_line (pred.now, single)) }
{
    if !is_listed(pred) {
        return Ok(());
    }
    text.extend_from_slice(answers_word(single))?;
    text.extend_from_slice(pred.name.as_slice())?;
    text.extend_from_slice(b"\n")?;
    Ok(())
}

// The lines of predicates, of which these are single.
#[tactic(auto, using(crate::proofs::ReportLemmas::none_left))]
fn lines_of(alloc: Global, preds: &[Pred], set: &[bool]) -> Result<Vec<u8>, AllocError>
    ensures { IfOk result (λ text. text.items ≡ flat_map report_line (zip preds.now set.now)) }
{
    let mut text = Vec::new(alloc);
    let mut preds = preds;
    let mut set = set;
    'lines: while let [pred, others @ ..] = preds {
        let [single, behind @ ..] = set else {
            return Ok(text);
        };
        push_line(&mut text, pred, *single)?;
        preds = others;
        set = behind;
    }
    Ok(text)
}

// The whole report on a program.
fn report_on(alloc: Global, program: &CoreProgram) -> Result<Vec<u8>, AllocError>
    ensures { IfOk result (λ text. (set : List Bool) × AreSingles program.now.preds set × (text.items ≡ report program.now set)) }
{
    let set = singles(alloc, program)?;
    lines_of(alloc, program.preds.as_slice(), &set)
}

// Makes the whole report on a source's program, and writes it then.
fn list<K: Sink>(alloc: Global, program: &CoreProgram, out: &mut K) -> u8
    ensures { (before after : ShelfView) → (name file dice : List ℕ) → (input : SourceView) →
        IsFetched before after name file → Compiles file (Ok program.now) →
        Answers (call (Some (singles_command name)) dice before after input input (K.view out.old) (K.view out.new)) result }
{
    match report_on(alloc, program) {
        Ok(text) => say_text(out, DONE, &text),
        Err(_) => no_memory(out),
    }
}

/// Fetches and reads a source, and lists its predicates.
pub fn list_file<F: Shelf, K: Sink>(alloc: Global, name: &str, shelf: &mut F, out: &mut K) -> u8
    ensures { (dice : List ℕ) → (input : SourceView) →
        Answers (call (Some (singles_command name.now)) dice (F.view shelf.old) (F.view shelf.new) input input (K.view out.old) (K.view out.new)) result }
{
    match program_in(alloc, name, shelf, out) {
        Ok(program) => {
            let status = list(alloc, &program, out);
            let_go(alloc, program);
            status
        }
        Err(status) => status,
    }
}
