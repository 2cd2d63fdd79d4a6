// A call of the program: a file is fetched, and its source linted.
ghost use Rattle.std.specs.Prelude.{◌≡◌, ◌++◌, ℕ, List, Ok, Err, codes, IfOk, IfErr};
ghost use Rattle.std.specs.Option.{option_map};
ghost use Rattle.dg_base.specs.Faults.{IsFault};
ghost use Rattle.dg_base.specs.Shelves.{KeepsAll};
ghost use Rattle.dg_base.specs.declared.program.CoreProgram.{CoreProgram as Core};
ghost use Rattle.dg_base.specs.Written.{texts as piece_texts, joined};
ghost use Rattle.dg_base.specs.TreeView.{tree_view};
ghost use Rattle.dg_compile.specs.Source.{Reads, AreOfSource, Becomes, Compiles, refusal_at};
ghost use Rattle.dg_meaning.specs.Transcript.{no_memory_line};
ghost use Rattle.dg_lint.specs.Call as spec;
ghost use Rattle.dg_lint.specs.Call.{texts, file_of, usage_line, refusal_line, file_fault_line, Says, HasLines, Tells, Lints, Opens, Answers};

use crate::lines::lint_tree;
use dg_base::{
    Kind, ReadFault, Refusal, Shelf, ShelfFault, Sink, Tree, text_of, write_all, write_pieces,
};
use dg_compile::{
    items_decide, long_sources_are_refused, program_of, tree_of, unread_sources_are_refused,
};
use dg_core::let_go;
use itoa::Buffer;
use std::alloc::Global;

const DONE: u8 = 0;

const REFUSED: u8 = 1;

const USAGE: u8 = 2;

const SLIPS: u8 = 3;

const FAULT: u8 = 5;

const NO_MEMORY: u8 = 6;

const MOST_BYTES: usize = 1_048_576;

// ---- what is printed

fn say<K: Sink>(out: &mut K, status: u8, pieces: &[&[u8]]) -> u8
    ensures { Says status (joined (piece_texts pieces.now)) (K.view out.old) (K.view out.new) result }
{
    match write_pieces(out, pieces) {
        Ok(()) => status,
        Err(_) => FAULT,
    }
}

fn no_memory<K: Sink>(out: &mut K) -> u8
    ensures { Says 6 no_memory_line (K.view out.old) (K.view out.new) result }
{
    say(out, NO_MEMORY, &[b"[No memory]\n"])
}

fn usage<K: Sink>(out: &mut K) -> u8
    ensures { Says 2 usage_line (K.view out.old) (K.view out.new) result }
{
    say(out, USAGE, &[b"usage: dialog-lint FILE\n"])
}

fn file_fault<K: Sink>(name: &str, out: &mut K) -> u8
    ensures { Says 5 (file_fault_line name.now) (K.view out.old) (K.view out.new) result }
{
    say(out, FAULT, &[name.as_bytes(), b": file fault\n"])
}

fn say_refusal<'a, K: Sink>(out: &mut K, name: &'a [u8], line: &'a [u8], text: &'a [u8]) -> u8
    ensures { Says 1 ((name.now ++ (codes ":" ++ (line.now ++ codes ": "))) ++ (text.now ++ codes "\n")) (K.view out.old) (K.view out.new) result }
{
    say(out, REFUSED, &[name, b":", line, b": ", text, b"\n"])
}

fn refuse<K: Sink>(name: &str, refusal: &Refusal, out: &mut K) -> u8
    ensures { Says 1 (refusal_line name.now refusal.now) (K.view out.old) (K.view out.new) result }
{
    let mut buffer = Buffer::new();
    let line = buffer.format(refusal.line).as_bytes();
    say_refusal(out, name.as_bytes(), line, text_of(refusal.kind).as_bytes())
}

fn say_lines<K: Sink>(text: &[u8], out: &mut K) -> u8
    ensures { Says 3 text.now (K.view out.old) (K.view out.new) result }
{
    match write_all(out, text) {
        Ok(()) => SLIPS,
        Err(_) => FAULT,
    }
}

fn tell<K: Sink>(text: &[u8], out: &mut K) -> u8
    ensures { Tells text.now (K.view out.old) (K.view out.new) result }
{
    match text {
        [] => DONE,
        _ => say_lines(text, out),
    }
}

// ---- sources

// This text, where a tree becomes a program.
fn if_program(alloc: Global, tree: Tree, text: Vec<u8>) -> Result<Vec<u8>, ReadFault>
    requires { AreOfSource (tree_view tree) }
    ensures program { IfOk result (λ same. (p : Core) × Becomes (tree_view tree) (Ok p) × (same.items ≡ text.items)) }
    ensures refused { IfErr result (IsFault (λ r. Becomes (tree_view tree) (Err r))) }
{
    match program_of(alloc, tree) {
        Ok(program) => {
            let_go(alloc, program);
            Ok(text)
        }
        Err(fault) => Err(fault),
    }
}

// The lines of a tree, where it becomes a program.
fn lines_of_tree(alloc: Global, name: &[u8], tree: Tree) -> Result<Vec<u8>, ReadFault>
    requires { AreOfSource (tree_view tree) }
    ensures lines { (source : List ℕ) → Reads source (Ok (tree_view tree)) → IfOk result (λ text. HasLines name.now source text.items) }
    ensures refused { IfErr result (IsFault (λ r. Becomes (tree_view tree) (Err r))) }
{
    match lint_tree(alloc, name, &tree) {
        Ok(text) => if_program(alloc, tree, text),
        Err(_) => Err(ReadFault::OutOfMemory),
    }
}

/// The lines of a source, under the name of its file, or why the source is refused.
pub fn lint(alloc: Global, name: &[u8], source: &[u8]) -> Result<Vec<u8>, ReadFault>
    ensures lines { IfOk result (λ text. HasLines name.now source.now text.items) }
    ensures refused { IfErr result (IsFault (λ r. Compiles source.now (Err r))) }
{
    items_decide();
    unread_sources_are_refused();
    match tree_of(alloc, source) {
        Ok(tree) => lines_of_tree(alloc, name, tree),
        Err(fault) => Err(fault),
    }
}

fn lint_source<K: Sink>(alloc: Global, name: &str, source: &[u8], out: &mut K) -> u8
    ensures { Lints name.now source.now (K.view out.old) (K.view out.new) result }
{
    match lint(alloc, name.as_bytes(), source) {
        Ok(text) => tell(text.as_slice(), out),
        Err(ReadFault::Refused(refusal)) => refuse(name, &refusal, out),
        Err(ReadFault::OutOfMemory) => no_memory(out),
    }
}

// ---- the call

fn too_long() -> Refusal
    ensures { result ≡ refusal_at Kind.SourceTooLong 1 }
{
    Refusal {
        kind: Kind::SourceTooLong,
        line: 1,
    }
}

fn lint_file<F: Shelf, K: Sink>(alloc: Global, name: &str, shelf: &mut F, out: &mut K) -> u8
    ensures opens { Opens name.now (F.view shelf.old) (F.view shelf.new) (K.view out.old) (K.view out.new) result }
    ensures keeps { KeepsAll (F.view shelf.old).contents (F.view shelf.new).contents }
{
    long_sources_are_refused();
    match shelf.fetch(alloc, name, MOST_BYTES) {
        Ok(source) => lint_source(alloc, name, source.as_slice(), out),
        Err(ShelfFault::TooLong) => refuse(name, &too_long(), out),
        Err(ShelfFault::Failed) => file_fault(name, out),
        Err(ShelfFault::OutOfMemory) => no_memory(out),
    }
}

fn is_file_name(name: &str) -> bool
    ensures { result ≡ spec.is_file_name name.now }
{
    match name.as_bytes() {
        [] => false,
        [b'-', b'-', ..] => false,
        _ => true,
    }
}

fn file_of(words: &[String]) -> Option<&str>
    ensures { option_map (λ name. name.now) result ≡ file_of (texts words.now) }
{
    match words {
        [word] => {
            let name = word.as_str();
            if is_file_name(name) { Some(name) } else { None }
        }
        _ => None,
    }
}

/// Lints the file that the words behind the program's name are, and answers the exit status: 0 there are no slips, 3 there are, 1 the source is refused,
/// 2 the words are no file's name, 5 the shelf or the output failed, 6 memory ran out.
pub fn lint_words<F: Shelf, K: Sink>(
    alloc: Global,
    words: &[String],
    shelf: &mut F,
    out: &mut K,
) -> u8
    ensures answers { Answers (record {
      file = file_of (texts words.now);
      shelf = F.view shelf.old;
      shelf_after = F.view shelf.new;
      out = K.view out.old;
      out_after = K.view out.new;
    }) result }
{
    match file_of(words) {
        Some(name) => lint_file(alloc, name, shelf, out),
        None => usage(out),
    }
}
