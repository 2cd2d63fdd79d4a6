// One token more.
ghost use Rattle.std.specs.Prelude.{◌≡◌, drop, IfOk};
ghost use Rattle.dg_lex.specs.Spelled.{without_escapes};
ghost use Rattle.dg_reader.specs.TokenView.{token_view};
ghost use Rattle.dg_reader.specs.inside.Machine as machine;
ghost use Rattle.dg_open.specs.inside.Views.{stack_view};
ghost use Rattle.dg_reader.specs.inside.Frames.{Moves};

use crate::close::{close_body, close_list, close_paren};
use crate::forms::{dict_word, variable};
use crate::halts::Stop;
use crate::open::{
    open_body, open_list, open_paren, put_at, put_bar, put_object, put_star, put_tilde,
};
use crate::put::{put_printed, put_word};
use crate::words::name_of;
use dg_base::{Name, Value};
use dg_lex::{Token, TokenKind};
use dg_open::Frame;
use std::alloc::{AllocError, Global};

// The name behind a sign.
fn name_behind(alloc: Global, text: &[u8]) -> Result<Name, AllocError>
    ensures { IfOk result (λ name. name ≡ without_escapes (drop 1 text.now)) }
{
    match text {
        [_, name @ ..] => name_of(alloc, name),
        [] => name_of(alloc, text),
    }
}

/// What stands open behind one token more.
pub fn step(alloc: Global, stack: &mut Vec<Frame>, token: &Token<'_>) -> Result<(), Stop>
    ensures { Moves (machine.step (token_view token.now) (stack_view stack.old.items)) result (stack_view stack.new.items) }
{
    match token.kind {
        TokenKind::Word => put_word(alloc, stack, name_of(alloc, token.text)?),
        TokenKind::Dict => put_printed(alloc, stack, dict_word(name_behind(alloc, token.text)?)),
        TokenKind::Object => put_object(alloc, stack, name_behind(alloc, token.text)?),
        TokenKind::Var => put_printed(alloc, stack, variable(name_behind(alloc, token.text)?)),
        TokenKind::Anon => put_printed(alloc, stack, Value::Any),
        TokenKind::At => put_at(stack),
        TokenKind::Hash => Err(Stop::Unexpected),
        TokenKind::RoundOpen => open_paren(alloc, stack),
        TokenKind::RoundClose => close_paren(alloc, stack),
        TokenKind::SquareOpen => open_list(alloc, stack),
        TokenKind::SquareClose => close_list(alloc, stack),
        TokenKind::BraceOpen => open_body(alloc, stack),
        TokenKind::BraceClose => close_body(alloc, stack),
        TokenKind::Bar => put_bar(stack),
        TokenKind::Star => put_star(stack),
        TokenKind::Tilde => put_tilde(stack),
    }
}
