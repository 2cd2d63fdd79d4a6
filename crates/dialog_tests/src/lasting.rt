// Long runs and long values: millions of goals in the memory that was taken for them before the first, and what meets a limit.
use crate::calls::{gives, play_all};
use std::alloc::Global;
use std::process::Abort;
use std::test::Fail;

// One fails and begins anew, one ends with a call of itself, with a choice behind it, and one counts down by last calls, fails at
// the end, and begins anew; each without an end.
const RUNS: &str = "
>>> debug p.dg --steps 3000000 --heap 20
(program entry point) (repeat forever) (fail)
=== 3
[Step limit]
>>> debug p.dg --steps 500000 --heap 60000
(program entry point) (repeat forever) (p)
(p) (p)
=== 3
[Heap limit]
>>> debug p.dg --steps 500000 --heap 3000 --trail 2000
(program entry point) (repeat forever) (p 100)
(p 0) (fail)
(p $N) ($N minus 1 into $M) (p $M)
=== 3
[Step limit]
";

#[test]
fn long_runs_stay_in_their_memory(rt: HostRuntime) -> Result<(), Fail> {
    play_all(&rt, rt.alloc(), RUNS)
}

// Words that run a source, the source, and with how many x its run meets the heap's limit, with what status. A query takes six
// cells, and a rule with another first argument none. A story has 10,000 cells.
const FULL: &[(&str, &str, usize, u8)] = &[
    (
        "debug p.dg --heap 1000 --steps 100000",
        "(d @a) x (d @a)\n(d @b)\n(program entry point) (d @a)",
        165,
        3,
    ),
    (
        "debug p.dg --heap 10000",
        "(p) x (p)\n(program entry point) (p)",
        1665,
        3,
    ),
    (
        "run p.dg --steps 200000000",
        "(p) x (p)\n(program entry point) (p)",
        1665,
        0,
    ),
];

fn is_full(rt: &impl Abort, alloc: Global, row: &(&str, &str, usize, u8)) -> Result<(), Fail> {
    let (line, source, count, status) = row;
    let printed = "x ".repeat(alloc, *count)?;
    let text = format!(in alloc; "{}\n[Heap limit]\n", printed.trim_end())?;
    gives(
        rt,
        alloc,
        line,
        "p.dg",
        source.as_bytes(),
        b"",
        (*status, text.as_str()),
    )
}

#[test]
fn a_heap_holds_so_many_queries(rt: HostRuntime) -> Result<(), Fail> {
    for row in FULL {
        is_full(&rt, rt.alloc(), row)?;
    }
    Ok(())
}

// The command, how many words a list has that is kept from the start, and the only line of its run. What is kept are the list's words and
// its pairs, one cell each, of at most 10,000, or 500 in a story: 5,000 words with their pairs and the empty list behind them are one too
// many, and so are 250 in a story.
const KEPT: &[(&str, usize, (u8, &str))] = &[
    ("debug p.dg", 10, (0, "x\n")),
    ("debug p.dg", 5000, (3, "[Keep limit]\n")),
    ("run p.dg", 249, (0, "x\n")),
    ("run p.dg", 250, (0, "[Keep limit]\n")),
];

#[test]
fn what_starts_set_is_kept_or_ends_the_run(rt: HostRuntime) -> Result<(), Fail> {
    for (line, count, wanted) in KEPT {
        let list = "a ".repeat(rt.alloc(), *count)?;
        let source = format!(in rt.alloc();
            "(global variable (l [{list}]))\n(program entry point) x"
        )?;
        gives(
            &rt,
            rt.alloc(),
            line,
            "p.dg",
            source.as_bytes(),
            b"",
            *wanted,
        )?;
    }
    Ok(())
}
