// Sources and their traces, worked out by hand from what a trace is; and traces without their calls, beside the transcripts of the
// same sources.
use crate::calls::{Case, cases_of, output_of, play_all};
use crate::checks::same;
use crate::transcripts::SOURCES;
use crate::typing::{GAME, TYPED};
use crate::worlds::WORLDS;
use std::alloc::{AllocError, Global};
use std::process::Abort;
use std::test::Fail;

const TRACES: &str = r#"
>>> trace p.dg
(p 1)
(p 2)
(program entry point) { *(p $X) $X (fail) (or) done }
=== 0
? (program entry point)
? (p $)
= (p $)
"1
< (p $)
= (p $)
" 2
! (p $)
" done
= (program entry point)
.
>>> trace p.dg
%% What (just) cuts off is told no more.
(p) *(q $X) (just) $X (fail)
(p) second
(q 1)
(q 2)
(program entry point) (if) (p) (then) yes (else) no (endif)
=== 0
? (program entry point)
? (p)
? (q $)
= (q $)
"1
" no
= (program entry point)
.
>>> trace p.dg
%% A query without a rule fails at once, and so does the entry behind it.
(program entry point) a (line) b (p)
=== 0
? (program entry point)
"a
.
"b
? (p)
! (p)
! (program entry point)
.
"[Failed]
.
>>> trace p.dg --steps 3
(p) x
(program entry point) (p) y
=== 3
? (program entry point)
? (p)
"x
= (p)
.
"[Step limit]
.
>>> trace p.dg --dice 7
(program entry point) (get input $W) $W (get input $)
<<<
lamp
=== 0
? (program entry point)
"[
"lamp
"]
.
"[End of input]
.
>>> trace p.dg
%% A rule that the first argument excludes is tried and told too.
(p 1)
(p 2)
(p 3)
(program entry point) (p 3)
=== 0
? (program entry point)
? (p $)
< (p $)
< (p $)
= (p $)
= (program entry point)
>>> trace p.dg
(program entry point) (p
=== 1
p.dg:1: unclosed construct
>>> trace p.dg --heap 0
(program entry point)
=== 2
usage: dialog debug FILE, build FILE OUT, play STORY, run FILE, singles FILE, make N, list FILE, join LISTING OUT, trace FILE
"#;

const ROWS: &str = r#"
>>> debug p.dg
(p 1)
(p 2)
(program entry point) { *(p $X) $X (fail) (or) done }
=== 0
1 2 done
>>> debug p.dg
(p) *(q $X) (just) $X (fail)
(p) second
(q 1)
(q 2)
(program entry point) (if) (p) (then) yes (else) no (endif)
=== 0
1 no
>>> debug p.dg
(program entry point) ($N = 3) ($C = { got $N $_ }) (query $C 4)
=== 0
got 3 4
"#;

const TABLES: &[&str] = &[ROWS, SOURCES, WORLDS, TYPED, GAME];

#[test]
fn sources_give_their_trace(rt: HostRuntime) -> Result<(), Fail> {
    play_all(&rt, rt.alloc(), TRACES)
}

// What is left of lines without their calls.
fn erased(alloc: Global, lines: &[u8]) -> Result<Vec<u8>, AllocError> {
    let mut text = Vec::new(alloc);
    for line in lines.split(|byte| *byte == b'\n') {
        match line {
            [b'.', ..] => text.push(b'\n')?,
            [b'"', bytes @ ..] => text.extend_from_slice(bytes)?,
            _ => {}
        }
    }
    Ok(text)
}

// Traces the source of a case, and compares what is left without calls with what `debug` writes.
fn erases(rt: &impl Abort, alloc: Global, case: &Case<'_>, options: &str) -> Result<(), Fail> {
    let line = format!(in alloc; "trace p.dg{options}")?;
    let (source, typed) = (case.source.as_bytes(), case.typed.as_bytes());
    let (status, out) = output_of(alloc, &line, "p.dg", source, typed, 1_000_000)?;
    let text = erased(alloc, out.taken())?;
    let found = (status, text.as_slice());
    same(rt, &found, &(0, case.text.as_bytes()), case.source);
    Ok(())
}

// The cases of a table that `debug` runs without a limit.
fn erase_all(rt: &impl Abort, alloc: Global, table: &str) -> Result<(), Fail> {
    for case in &cases_of(rt, alloc, table)? {
        match case.line.strip_prefix("debug p.dg") {
            Some(options) if case.status == 0 => erases(rt, alloc, case, options)?,
            _ => {}
        }
    }
    Ok(())
}

#[test]
fn traces_without_calls_are_transcripts(rt: HostRuntime) -> Result<(), Fail> {
    for table in TABLES {
        erase_all(&rt, rt.alloc(), table)?;
    }
    Ok(())
}
