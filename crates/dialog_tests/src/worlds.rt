// Sources on what the world keeps and what is gathered, and what they print, worked out by hand. A row is written as calls.rt says.
use crate::calls::{play_all, run_all};
use std::test::Fail;

pub const WORLDS: &str = r#"
>>> debug p.dg
(global variable (score 0))
(program entry point) { (now) (score 5) (fail) (or) (score $S) $S }
=== 0
5
>>> debug p.dg
@($X is closed) ~($X is open)
(#lid is open)
(program entry point) (now) (#lid is closed) (if) (#lid is closed) (then) shut (endif)
=== 0
shut
>>> debug p.dg
@($X is $R $P) ($X has relation $R) ($X has parent $P)
(#lamp is #on #table)
(program entry point) *($X is #on #table) $X
=== 0
#lamp
>>> debug p.dg
(global variable (l []))
(program entry point) *(repeat forever) (l $L) (now) (l [$L | $L]) (fail)
=== 3
[Keep limit]
>>> debug p.dg
(#b is open)
(#a is open)
(program entry point) (now) ~(#b is open) *($X is open) $X
=== 0
#a
>>> debug p.dg
(program entry point) (if) (now) (5 is open) (then) y (else) n (endif)
=== 0
n
>>> debug p.dg
%% The first fact of an object decides, and an unset variable has no value.
(global variable (none $))
~(#b is open)
(#b is open)
(#a is open)
(#c is open)
(program entry point) { *($X is open) $X (now) ~(#c is open) (fail) (or) ~(none $) (now) ~($ is open) ~($ is open) done }
=== 0
#a done
>>> debug p.dg
($X is open) ($X = #lid)
(program entry point) (now) (#lid is open)
=== 0
>>> debug p.dg
(room #hall)
(room #den)
(#lamp has parent #hall)
($X is lit) (room $X)
(program entry point) (now) ~(#hall is lit) (exhaust) { *($X is lit) $X }
=== 0
#den
>>> debug p.dg
%% Values that rules find: the first answer decides, and what has none is unset.
(#a size 3)
($X weighs $N) *($X size $S) ($S times 2 into $N)
($ weighs 9) (fail)
(program entry point) (now) (#b weighs 1) (exhaust) { *($X weighs $N) $X $N }
=== 0
#a 6 #b 1
>>> debug p.dg
#hall
#lamp
(program entry point) *(object $X) $X (fail)
=== 0
#hall #lamp
[Failed]
>>> debug p.dg
@($X is $R $P) ($X has relation $R) ($X under $P)
(#lamp is #on #table)
(program entry point) *($X is #on #table) $X
=== 0
#lamp
>>> debug p.dg
@($X shut) ~($X open)
(#lid open)
(program entry point) (if) (#lid shut) (then) y (else) n (endif)
=== 0
n
>>> debug p.dg
%% A query of an access rule has one answer, one with a star all; each use has variables of its own.
@(small $X) *(p $X) *(p $Y) ($X < $Y)
(p 1)
(p 2)
(p 3)
(program entry point) { (small $A) $A (line) (fail) (or) *(small $A) $A (fail) (or) (line) ~(small 3) done }
=== 0
1
1 1 2
done
>>> debug p.dg
%% An anonymous variable of a nested query's first place stands in the head and in the body: no copy of a closure has one of its own.
@(q $C) (r $C)
(r $C) (query $C)
(x $V) (if) (bound $V) (then) old (else) ($V = 1) new (endif)
(p (q {(x $)}))
(program entry point) (p $C) (query $C)
=== 0
new old
>>> debug p.dg
@(q $C) (r $C)
@(h $C) (k $C)
(r $C) (query $C)
(x $V) (if) (bound $V) (then) old (else) ($V = 1) new (endif)
(h (q {(x $)}))
(program entry point) (h $C) (query $C)
=== 0
new old
>>> debug p.dg
@(q $C) (r $C) (r $C)
@(y $V) (x $V)
(r $C) (query $C)
(x $V) (if) (bound $V) (then) old (else) ($V = 1) new (endif)
(p (q {(y $)}))
(program entry point) (p $C) (query $C)
=== 0
new old old
>>> debug p.dg
%% An own one of an argument's closure is new where the argument is put in, also of a closure within and beside an access query.
@(q $C) (r $C) (r $C)
@(y $V) (x $V)
(r $C) (query $C)
(x $V) (if) (bound $V) (then) old (else) ($V = 1) new (endif)
(program entry point) (q {(x $)}) (line) (q {(r {(y $)})}) (line) (q {(q {(x $)})}) (line) (p $C) (query $C)
(p {(y $)}) (q {(y $)})
=== 0
new new
new new
new new new new
new new new
>>> debug p.dg
%% 64 variables in a rule: 34 anonymous ones that stand in the head and in the body, and 30 of an access rule.
@(q $C) (r $C)
@(more) (y $A $B $C $D $E $F $G $H $I $J $K $L) (y $M $N $O $P $Q $R $S $T $U $V $W $X) (z $AA $BB $CC $DD $EE $FF)
(p (q {(x $ $ $ $ $ $ $ $ $ $ $ $) (x $ $ $ $ $ $ $ $ $ $ $ $) (u $ $ $ $ $ $ $ $ $ $)})) (more)
(program entry point) x
=== 0
x
>>> debug p.dg
%% The cut leaves the inner gathering half full.
(p 1)
(a) (collect $X) *(p $X) (just) (fail) (into $)
(a) no
(program entry point) (collect $Y) { ($Y = 5) (or) (a) ($Y = 6) } (into $L) $L
=== 0
[5]
>>> debug p.dg
(p 16383)
(p 1)
(program entry point) (if) (accumulate $X) *(p $X) (into $N) (then) $N (else) large (endif)
=== 0
large
>>> debug p.dg
(p 1)
(p $)
(program entry point) (collect [$X $X]) *(p $X) (into [$A [$B $C] | $D]) ($B = 2) $A $B $C $D (accumulate 3) *(p $) (into $N) $N
=== 0
[1 1] 2 $ [] 6
>>> debug p.dg
(program entry point) x (collect 1) (repeat forever) (into $)
=== 3
x
[Aux limit]
>>> debug p.dg
(program entry point) (collect $X) *(p $X) (into $L) $L
=== 0
[]
>>> run p.dg
%% What global variables start with stands in their story, and changes there.
(global variable (x [1 2]))
(global variable (y @cat))
(global variable (z $))
(program entry point) (x $A) (y $B) $A $B (now) (x [$A 3]) (now) (z [4 | $A]) (now) ~(y $) (x $C) $C (z $D) $D { (y $) yes (or) no }
=== 0
[1 2] cat [[1 2] 3] [4 1 2] no
"#;

#[test]
fn worlds_give_their_transcript(rt: HostRuntime) -> Result<(), Fail> {
    play_all(&rt, rt.alloc(), WORLDS)
}

#[test]
fn stories_have_the_world_of_their_source(rt: HostRuntime) -> Result<(), Fail> {
    run_all(&rt, rt.alloc(), WORLDS, 10)
}
