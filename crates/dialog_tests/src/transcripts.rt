// Sources and what they print, worked out by hand from the rules of the language. A row is written as calls.rt says. Those on what the
// world keeps and what is gathered stand in worlds.rt.
use crate::calls::{play_all, run_all};
use std::test::Fail;

pub const SOURCES: &str = r#"
>>> debug p.dg
(program entry point) (stoppable) { a (stop) b } (line) (exhaust) { { c (or) d } } (1 < 2) e
=== 0
a
c d e
>>> debug p.dg --dice 7
(program entry point) (random from 3 to 5 into $N) $N
=== 0
4
>>> debug p.dg
(program entry point) (7 divided by 2 into $Q) (7 modulo 2 into $R) $Q $R
=== 0
3 1
>>> debug p.dg --dice 4,4,4
(s) (select) A (or) B (or) C (at random)
(program entry point) (s) (s) (s)
=== 0
B A B
>>> debug p.dg
(s) (select) A (or) B (or) C (stopping)
(program entry point) (s) (s) (s) (s)
=== 0
A B C C
>>> debug p.dg
%% What was picked is kept behind a failure.
(s) (select) a (or) b (cycling)
(program entry point) { (s) (fail) (or) (s) (s) }
=== 0
a b a
>>> debug p.dg
(program entry point) { (query 5) x (or) (query [] 1) y (or) (query $C) z (or) done }
=== 0
done
>>> debug p.dg
(program entry point) ($N = 3) ($C = { got $N $_ ($X = 7) }) (query $C 4) $X
=== 0
got 3 4 7
>>> debug p.dg
%% Each closure has a parameter of its own, which is unbound where none is given.
(program entry point) ($C = { ($D = { $_ }) (query $D 1) $_ (query $D) }) (query $C 2)
=== 0
1 2 $
>>> debug p.dg
(p 1)
(p 2)
(program entry point) ($C = { *(p $_) }) { *(query $C $X) $X (fail) (or) (query $C $X) $X (fail) (or) done }
=== 0
1 2 1 done
>>> debug p.dg
(program entry point) *(append $A $B [1 2]) $A $B (line) (fail)
=== 0
[] [1 2]
[1] [2]
[1 2] []
[Failed]
>>> debug p.dg
(program entry point) (split [a b c d] by [c b] into $X and $Y) $X $Y ~(@c is one of $X)
=== 0
[a] [c d]
>>> singles p.dg
(program entry point) (split [a b c d] by [c b] into $X and $Y) $X $Y ~(@c is one of $X)
=== 0
single (program entry point)
>>> make 2

=== 0
source 11 lines 300 bytes
output 27 bytes
goals 27
ending Done
>>> make 10

=== 0
source 27 lines 556 bytes
output 100 bytes
goals 107
ending Done
>>> debug p.dg
(program entry point) Hello, world!
=== 0
Hello, world!
>>> debug p.dg
(a) x (b)
(a) y
(b) (c)
(program entry point) (a) z
=== 0
x y z
>>> debug p.dg --steps 4
(a) x (b)
(a) y
(b) (c)
(program entry point) (a) z
=== 3
x
[Step limit]
>>> debug p.dg --steps 6
(a) x (b)
(a) y
(b) (c)
(program entry point) (a) z
=== 3
x y
[Step limit]
>>> debug p.dg --steps 007
(a) x (b)
(a) y
(b) (c)
(program entry point) (a) z
=== 0
x y z
>>> debug p.dg --dice 1,2
(a) x (b)
(a) y
(b) (c)
(program entry point) (a) z
=== 0
x y z
>>> debug p.dg
(p 1)
(p 2)
(program entry point) { *(p $X) $X (fail) (or) done }
=== 0
1 2 done
>>> debug p.dg
(p 1)
(p 2)
(program entry point) { (p $X) $X (fail) (or) done }
=== 0
1 done
>>> debug p.dg
(p) *(q $X) (just) $X (fail)
(p) second
(q 1)
(q 2)
(program entry point) (if) (p) (then) yes (else) no (endif)
=== 0
1 no
>>> debug p.dg
(p) (if) (just) (fail) (then) a (else) b (endif)
(p) c
(program entry point) (if) (p) (then) y (else) n (endif)
=== 0
n
>>> debug p.dg --steps 7
(program entry point) (repeat forever) x (fail)
=== 3
x x
[Step limit]
>>> debug p.dg --heap 33 --trail 5
(p $X) x (p [a | $X])
(program entry point) (p [])
=== 3
x x x
[Heap limit]
>>> debug p.dg
(perform [take/get $X]) took $X
(program entry point) (perform [get lamp])
=== 0
took lamp
>>> debug p.dg
(q 1)
(q 2)
(p (q $X)) $X
(program entry point) *(p 2)
=== 0
2
>>> debug p.dg
%% Two values that are doubled thirty times each: as trees they have a thousand million parts.
(twice [] $X $X)
(twice [$ | $N] $X $Y) (twice $N [$X | $X] $Y)
(value $X $Y) (twice [0 0 0 0 0 0 0 0 0 0 0 0 0 0 0 0 0 0 0 0 0 0 0 0 0 0 0 0 0 0] [$X] $Y)
(program entry point) (value $A $X) (value $B $Y) ($X = $Y) ($A = 1) (fully bound $X) $B
=== 0
1
>>> debug p.dg --heap 11
(p 1)
(p 2)
(program entry point) (p 2) done
=== 3
[Heap limit]
>>> debug p.dg --heap 12
(p 1)
(p 2)
(program entry point) (p 2) done
=== 0
done
>>> debug p.dg
(program entry point) (if) ($X = [a | $X]) (then) yes (else) no (endif)
=== 0
no
>>> debug p.dg
(program entry point) ([$A 2] = [1 $B]) $A $B
=== 0
1 2
>>> debug p.dg
(program entry point) \(x\) %% a comment
=== 0
(x)
>>> debug p.dg
#hall
(program entry point) (none)
=== 0
[Failed]
>>> debug p.dg
(program entry point) Well , (no space) done . (par) Next (line) (line) end
=== 0
Well,done.

Next
end
>>> debug p.dg
(program entry point) (if) (16383 plus 1 into $) (then) yes (else) no (endif)
=== 0
no
>>> debug p.dg
(program entry point) (stoppable) { one (stop) two } three
=== 0
one three
>>> debug p.dg
(program entry point) one (stop)
=== 0
one
[Stopped]
>>> debug p.dg
(program entry point) (fail)
=== 0
[Failed]
>>> debug p.dg
(p 1)
(p 2)
(program entry point) (collect $X) *(p $X) (into $L) $L
=== 0
[1 2]
>>> debug p.dg --trail 2
(program entry point) { ($X = 1) x ($Y = 2) y ($Z = 3) z (or) none } done
=== 3
x y
[Trail limit]
>>> debug p.dg --trail 3
(program entry point) { ($X = 1) x ($Y = 2) y ($Z = 3) z (or) none } done
=== 0
x y z done
>>> make 400

=== 0
source 807 lines 15106 bytes
output 4991 bytes
goals 4007
ending Done
>>> singles p.dg
(p) *(q $X) (just) $X (fail)
(p) second
(q 1)
(q 2)
(program entry point) (if) (p) (then) yes (else) no (endif)
=== 0
single (p)
many (q $)
single (program entry point)
"#;

#[test]
fn sources_give_their_transcript(rt: HostRuntime) -> Result<(), Fail> {
    play_all(&rt, rt.alloc(), SOURCES)
}

#[test]
fn stories_give_the_transcript_of_their_source(rt: HostRuntime) -> Result<(), Fail> {
    run_all(&rt, rt.alloc(), SOURCES, 20)
}
