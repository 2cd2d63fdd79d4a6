// The shape of an item, from its tokens.
ghost use Rattle.std.specs.Prelude.{◌≡◌, ◌∷◌, [], map, true, None, Some, Ok, Err, IfOk};
ghost use Rattle.dg_reader.specs.Grammar.{IsUnexpectedAt};
ghost use Rattle.dg_reader.specs.inside.Machine as machine;
ghost use Rattle.dg_open.specs.inside.Standing as standing;
ghost use Rattle.dg_reader.specs.TokenView.{token_view};
ghost use Rattle.dg_open.specs.inside.Views.{stack_view, shape_view};
ghost use Rattle.dg_reader.specs.inside.Items.{StopsAt, IsOpen, EndsAs, OnUnclosed, OnUnexpected};
ghost use Rattle.dg_reader.specs.declared.item.ShapeFault.TheVariants.{OutOfMemory};

use crate::halts::Stop;
use crate::step::step;
use dg_lex::Token;
use dg_open::{Frame, Shape, finished, let_go_frames};
use std::alloc::{AllocError, AllocFailed, Global};

/// Why tokens have no shape: they may go on, or the token of this number may not stand there.
#[derive(Clone, Copy)]
pub enum ShapeFault {
    Unclosed,
    Unexpected(usize),
    OutOfMemory,
}

impl From<AllocError> for ShapeFault {
    ghost from_gives = { λ _ e. e ≡ OutOfMemory };

    fn from(_: AllocError) -> Self {
        ShapeFault::OutOfMemory
    }
}

impl<T: Drop> From<AllocFailed<T>> for ShapeFault {
    ghost from_gives = { λ _ e. e ≡ OutOfMemory };

    fn from(_: AllocFailed<T>) -> Self {
        ShapeFault::OutOfMemory
    }
}

fn begin(alloc: Global) -> Result<Vec<Frame>, AllocError>
    ensures { IfOk result (λ stack. stack_view stack.items ≡ standing.start ∷ []) }
{
    let mut stack = Vec::new(alloc);
    stack.push(Frame::Start)?;
    Ok(stack)
}

// The token of this number may not stand behind what was read.
fn stopped(stack: Vec<Frame>, index: usize) -> Result<Vec<Frame>, ShapeFault>
    ensures { result ≡ Err (ShapeFault.Unexpected index) }
{
    let_go_frames(stack);
    Err(ShapeFault::Unexpected(index))
}

// What stands open behind all tokens.
fn run(alloc: Global, tokens: &[Token<'_>]) -> Result<Vec<Frame>, ShapeFault>
    ensures ok { IfOk result (λ stack. machine.run (map token_view tokens.now) (standing.start ∷ []) ≡ Some (stack_view stack.items)) }
    ensures unclosed { OnUnclosed result ⊥ }
    ensures unexpected { OnUnexpected result (λ index. StopsAt tokens.now index) }
{
    let mut stack = begin(alloc)?;
    for index in 0..tokens.len() {
        match step(alloc, &mut stack, &tokens[index]) {
            Ok(()) => {}
            Err(Stop::Unexpected) => return stopped(stack, index),
            Err(Stop::OutOfMemory) => return Err(ShapeFault::OutOfMemory),
        }
    }
    Ok(stack)
}

// The item that ends where the tokens do.
fn end(stack: Vec<Frame>) -> Result<Shape, ShapeFault>
    ensures ok { IfOk result (λ shape. standing.finished (stack_view stack.items) ≡ Some (shape_view shape)) }
    ensures unclosed { OnUnclosed result (standing.finished (stack_view stack.items) ≡ None) }
    ensures unexpected { OnUnexpected result (λ index. ⊥) }
{
    match finished(stack)? {
        Some(shape) => Ok(shape),
        None => Err(ShapeFault::Unclosed),
    }
}

/// The item that these tokens are, all of them.
pub fn find(alloc: Global, tokens: &[Token<'_>]) -> Result<Shape, ShapeFault>
    ensures ok { IfOk result (λ shape. EndsAs (map token_view tokens.now) (shape_view shape)) }
    ensures unclosed { OnUnclosed result (IsOpen (map token_view tokens.now)) }
    ensures unexpected { OnUnexpected result (λ index. StopsAt tokens.now index) }
    ensures first { OnUnexpected result (λ index. IsUnexpectedAt true (map token_view tokens.now) index) }
{
    match run(alloc, tokens) {
        Ok(stack) => end(stack),
        Err(fault) => Err(fault),
    }
}
