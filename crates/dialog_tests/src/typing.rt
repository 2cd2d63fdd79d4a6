// Sources that read what is typed. A row is written as calls.rt says.
use crate::calls::{Case, case_of, gives, play_all, run_all};
use std::test::Fail;

pub const TYPED: &str = r#"
>>> debug p.dg
(program entry point) (get input $W) $W
<<<
Take LAMP, 7
=== 0
[take lamp, 7]
>>> debug p.dg
(program entry point) (get input $W) $W
=== 0
[End of input]
>>> debug p.dg
(program entry point) (get input $W) $W
<<<


=== 0
[]
>>> debug p.dg
(program entry point) (get input $W) $W
<<<
16383 16384 007
=== 0
[16383 16384 7]
>>> debug p.dg
(program entry point) (get input $W) $W
<<<
PRENDRE L'Épée
=== 0
[prendre l'épée]
>>> debug p.dg
(w @lighthouses) many
(w @lighthousekeeper) one
(w @épée) yes
(program entry point) (get input [$W]) (w $W)
<<<
lighthousekeeper
=== 0
one
>>> debug p.dg
(w @lighthouses) many
(w @lighthousekeeper) one
(w @épée) yes
(program entry point) (get input [$W]) (w $W)
<<<
ÉPÉE
=== 0
yes
>>> debug p.dg
(program entry point) a (get input $A) b (get input $B) $A $B
<<<
x
y
=== 0
a
b
[x] [y]
>>> debug p.dg
(program entry point) (split word @ab1 into $L) $L
=== 0
[a b 1]
>>> debug p.dg
(program entry point) (join words [a 12] into $W) $W (if) (join words [@1 2] into 12) (then) n (endif) (join words [] into $)
=== 0
a12 n
[Failed]
"#;

// A game, in which the world changes and its rules are asked for what was typed.
pub const GAME: &str = r##"
>>> debug p.dg
(global variable (here #hall))
(global variable (turns 0))
@($X is held)
  ($X has parent #you)

#hall
(name *) the hall
(* leads @north to #cellar)

#cellar
(name *) the cellar
(* leads @south to #hall)

#lamp
(name *) a brass lamp
(* has parent #hall)
(noun @lamp is *)

(look)
  (here $R) (uppercase) (name $R) . (line)
  (exhaust) {
    *($T has parent $R)
    There is (name $T) here. (line)
  }

(perform [look/l]) (look)
(perform [take/get $W])
  (noun $W is $T)
  (if) ($T is held) (then) You have it.
  (elseif) (here $R) ($T has parent $R) (then)
    (now) ($T is held) Taken.
  (else) It is not here. (endif)
(perform [drop $W])
  (noun $W is $T) ($T is held) (here $R)
  (now) ($T has parent $R) Dropped.
(perform [go $D])
  (here $R)
  (if) ($R leads $D to $N) (then) (now) (here $N) (look)
  (else) You cannot go that way. (endif)
(perform [inventory/i])
  You carry
  (if) ($T is held) (then) (name $T) (else) nothing (endif) .
(perform [quit]) Goodbye. (quit)

(program entry point)
  (look)
  *(repeat forever)
  (par) > (get input $Words)
  (turns $N) ($N plus 1 into $M) (now) (turns $M)
  (if) (perform $Words) (then) (else) What? (endif)
  (fail)
<<<
look
take lamp
inventory
go north
drop lamp
look
dance
quit

=== 0
The hall.
There is a brass lamp here.

>
The hall.
There is a brass lamp here.

>
Taken.

>
You carry a brass lamp.

>
The cellar.

>
Dropped.

>
The cellar.
There is a brass lamp here.

>
What?

>
Goodbye.
"##;

pub fn game() -> Option<Case<'static>> {
    case_of(GAME.strip_prefix("\n>>> ")?)
}

const ECHO: &[u8] = b"(program entry point) (get input $W) $W";

// Bytes that no text can show: what is typed, and what is written.
const BYTES: &[(&[u8], &str)] = &[
    (b"go  \"up\".\r\nno", "[go \" up \".]\n"),
    (b"\xE4", "[?]\n"),
];

#[test]
fn typed_lines_are_read(rt: HostRuntime) -> Result<(), Fail> {
    play_all(&rt, rt.alloc(), TYPED)?;
    play_all(&rt, rt.alloc(), GAME)
}

#[test]
fn stories_read_typed_lines(rt: HostRuntime) -> Result<(), Fail> {
    run_all(&rt, rt.alloc(), TYPED, 3)
}

#[test]
fn typed_bytes_are_read(rt: HostRuntime) -> Result<(), Fail> {
    for (typed, text) in BYTES {
        let wanted = (0, *text);
        gives(&rt, rt.alloc(), "debug p.dg", "p.dg", ECHO, typed, wanted)?;
    }
    Ok(())
}
