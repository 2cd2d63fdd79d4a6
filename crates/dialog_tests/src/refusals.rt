// Sources and words that are refused, each with its line. A row is written as calls.rt says.
use crate::calls::{USAGE, gives, play_all};
use std::alloc::Global;
use std::process::Abort;
use std::test::Fail;

const REFUSALS: &str = r#"
>>> debug p.dg
(program entry point) (now) (a 1 2 3)
=== 1
p.dg:1: cannot be changed here
>>> debug p.dg
(program entry point)
  (now) (#a is one of [])
=== 1
p.dg:1: cannot be changed here
>>> debug p.dg
(program entry point) x
(p) (now) (#a = #b)
=== 1
p.dg:2: cannot be changed here
>>> debug p.dg
($ is lit) hello
(program entry point) (now) (#a is lit)
=== 1
p.dg:1: bad initial value
>>> debug p.dg
(loop) (loop)
($ is lit) (loop)
(program entry point) (now) (#a is lit)
=== 1
p.dg:2: initial value takes too long
>>> debug p.dg
%% An item that isn't quiet comes before a search, and a search before the missing entry.
($ is lit) (loop)
(loop) (loop)
($X is open) ($X is lit)
(p) (now) (#a is lit) (now) (#a is open)
=== 1
p.dg:4: bad initial value
>>> debug p.dg
(loop) (loop)
($ is lit) (loop)
(p) (now) (#a is lit)
=== 1
p.dg:2: initial value takes too long
>>> debug p.dg
%% The places come in order, and the objects of each: a value that a place can't have, before a search that takes too long.
(loop) (loop)
(#a is in [])
($X is in [$X])
($ is lit) (loop)
(program entry point) (now) (#a is in #b) (now) (#a is lit)
=== 1
p.dg:3: bad initial value
>>> debug p.dg
(global variable (score 0))
(p) x
(score 5)
(program entry point) x
=== 1
p.dg:3: bad initial value
>>> debug p.dg
@(a) (b)
@(b) (a)
(program entry point) x
=== 1
p.dg:1: access rule loops or is repeated
>>> debug p.dg
@($X same $Y) ($X = $Y)
(program entry point) x
(1 same 2)
=== 1
p.dg:3: cannot be changed here
>>> debug p.dg
@(p) (q) (r)
~(p)
(program entry point) x
=== 1
p.dg:2: cannot be changed here
>>> debug p.dg
%% 35 anonymous variables that stand in the head and in the body, and 30 of an access rule.
@(q $C) (r $C)
@(more) (y $A $B $C $D $E $F $G $H $I $J $K $L) (y $M $N $O $P $Q $R $S $T $U $V $W $X) (z $AA $BB $CC $DD $EE $FF)
(p (q {(x $ $ $ $ $ $ $ $ $ $ $ $) (x $ $ $ $ $ $ $ $ $ $ $ $) (u $ $ $ $ $ $ $ $ $ $ $)})) (more)
(program entry point) x
=== 1
p.dg:4: too many
>>> debug p.dg

=== 1
p.dg:1: no rule for (program entry point)
>>> debug p.dg
(program entry point) (a) (b
=== 1
p.dg:1: unclosed construct
>>> debug p.dg
%%
%%
%%
(program entry point) Hello (if) (p)
=== 1
p.dg:4: unclosed construct
>>> debug p.dg
(program entry point) a
(b) )
=== 1
p.dg:2: unexpected token
>>> debug p.dg
(program entry point) Hello
  (if) (p)
  ) x
=== 1
p.dg:3: unexpected token
>>> debug p.dg
(program entry point)
  (p 16384)
=== 1
p.dg:2: unexpected token
>>> debug p.dg
(program entry point) (bold) x
=== 1
p.dg:1: not in this profile
>>> debug p.dg
(p *) x
=== 1
p.dg:1: bad head
>>> debug p.dg
(a
(program entry point) (bold)
=== 1
p.dg:1: unclosed construct
>>> run p.dg
(p)
=== 1
p.dg:1: no rule for (program entry point)
>>> play p.dg
(a) x (b)
(a) y
(b) (c)
(program entry point) (a) z
=== 4
p.dg: story too short
>>> list p.dg
(a
=== 1
p.dg:1: unclosed construct
>>> join p.dg p.z8
story 1
data 0 0g

=== 4
p.dg:2: not a listing
>>> join p.dg p.z8
story 1
data 0 00
=== 4
p.dg:2: not a listing
>>> join p.dg p.z8
(program entry point) x
=== 4
p.dg:1: not a listing
"#;

#[test]
fn sources_are_refused(rt: HostRuntime) -> Result<(), Fail> {
    play_all(&rt, rt.alloc(), REFUSALS)
}

const NO_COMMANDS: &[&str] = &[
    "debug",
    "debug p.dg --steps 0",
    "debug p.dg --steps 1000000000001",
    "debug p.dg --heap 16000001",
    "debug p.dg --heap 1 --heap 1",
    "debug p.dg --dice 65536",
    "singles p.dg --steps 5",
    "make 0",
    "make 401",
    "make p.dg",
    "make 2 --steps 5",
    "build p.dg",
    "build p.dg --p.z8",
    "build p.dg p.z8 --steps 5",
    "list p.dg --steps 5",
    "list p.dg p.txt",
    "join p.dg",
    "join p.dg --p.z8",
    "join p.dg p.z8 --steps 5",
    "run p.dg --heap 5",
    "play p.dg --heap 1",
];

#[test]
fn words_that_are_no_command_are_refused(rt: HostRuntime) -> Result<(), Fail> {
    for line in NO_COMMANDS {
        let source = b"(program entry point) x\n";
        gives(&rt, rt.alloc(), line, "p.dg", source, b"", (2, USAGE))?;
    }
    Ok(())
}

fn refused(rt: &impl Abort, alloc: Global, source: &[u8], text: &str) -> Result<(), Fail> {
    gives(rt, alloc, "debug p.dg", "p.dg", source, b"", (1, text))
}

fn many_rules(alloc: Global) -> Result<String, Fail> {
    let mut source = String::new(alloc);
    for n in 0..4000 {
        source.push_str(format!(in alloc; "(a{n})\n")?.as_str())?;
    }
    source.push_str("(program entry point) x")?;
    Ok(source)
}

#[test]
fn large_sources_are_refused(rt: HostRuntime) -> Result<(), Fail> {
    let many = many_rules(rt.alloc())?;
    refused(&rt, rt.alloc(), many.as_bytes(), "p.dg:4001: too many\n")?;
    let long = vec![in rt.alloc(); b' '; 1_048_577]?;
    refused(&rt, rt.alloc(), &long, "p.dg:1: source too long\n")?;
    let bad = b"(program entry point) x\n\xFF";
    refused(&rt, rt.alloc(), bad, "p.dg:2: bad character\n")
}

// A rule whose head has two queries, each with a closure of so many anonymous variables.
fn nested(
    alloc: Global,
    open: &str,
    close: &str,
    first: usize,
    second: usize,
) -> Result<String, Fail> {
    let mut source = String::from_str(alloc, "(p ")?;
    for count in [first, second] {
        source.push_str(open)?;
        for _ in 0..count {
            source.push_str("$ ")?;
        }
        source.push_str(close)?;
    }
    source.push_str(") x\n(program entry point) x")?;
    Ok(source)
}

const TAKEN: (u8, &str) = (0, "x\n");

const TOO_MANY: (u8, &str) = (1, "p.dg:1: too many\n");

// How each query begins and ends, and how many variables stand in the two.
const NESTED: &[(&str, &str, usize, usize, (u8, &str))] = &[
    ("(q {", "}) ", 32, 32, TAKEN),
    ("(q {", "}) ", 33, 32, TOO_MANY),
    ("(q {", "}) ", 64, 0, TAKEN),
    ("(q {", "}) ", 65, 0, TOO_MANY),
    ("(q [{", "}]) ", 33, 32, TOO_MANY),
    ("(q 1 {", "}) ", 64, 64, TAKEN),
];

#[test]
fn anonymous_variables_count_where_plain_heads_put_them(rt: HostRuntime) -> Result<(), Fail> {
    for (open, close, first, second, wanted) in NESTED {
        let source = nested(rt.alloc(), open, close, *first, *second)?;
        let bytes = source.as_bytes();
        gives(&rt, rt.alloc(), "debug p.dg", "p.dg", bytes, b"", *wanted)?;
    }
    Ok(())
}
