//! How groups stand in one another, the flags that hold behind them, and how many were opened.

ghost use Rattle.std.specs.Prelude.{◌≡◌, ◌≤◌, IfOk, MatchResult};
ghost use Rattle.fancy_tokens.specs.PatternViews.{opening_of, token_of, unboxed_of};
ghost use Rattle.fancy_tokens.specs.Tokens.{Open};
ghost use Rattle.fancy_tokens.specs.Nesting.{has_two, Enters, Leaves, GoesBy, opened_by, group_opened_by};

use crate::error::{ErrorKind, Fault};
use crate::flags::Flags;
use crate::lexing::Lexing;
use crate::tokens::{Opening, Token, Unboxed};
use std::alloc::AllocError;

/// So many groups may stand in one another.
pub const MOST_NESTED: usize = 250;

/// Whether an opening token has two parentheses.
fn has_two(opening: Opening<'_>) -> bool
    ensures { result ≡ has_two (opening_of opening.entry) }
{
    match opening {
        Opening::IfPattern => true,
        Opening::IfLook(_) => true,
        _ => false,
    }
}

/// A group is entered: the flags around it are kept, once for each parenthesis.
#[inline(always)]
pub fn enter(
    outer: &mut Vec<Flags>,
    flags: Flags,
    opening: Opening<'_>,
    left: usize,
) -> Result<Result<(), Fault>, AllocError>
    ensures { IfOk result (λ entered. Enters outer.old.items flags
        (opening_of opening.entry) left entered outer.new.items) }
{
    let two = has_two(opening);
    let levels = if two { 2 } else { 1 };
    let fits = MOST_NESTED.saturating_sub(outer.len());
    if levels > fits {
        return Ok(Err(Fault {
            left: left.saturating_sub(2 * fits),
            kind: ErrorKind::RecursionExceeded,
        }));
    }
    outer.push(flags)?;
    if two {
        outer.push(flags)?;
    }
    Ok(Ok(()))
}

/// A group is left: the flags around it hold again.
fn leave(outer: &mut Vec<Flags>, behind: Lexing, left: usize) -> Result<Lexing, Fault>
    ensures { Leaves outer.old.items behind left result outer.new.items }
{
    match outer.pop() {
        Some(flags) => Ok(Lexing { flags, ..behind }),
        None => Err(Fault {
            left,
            kind: ErrorKind::UnopenedCloseParen,
        }),
    }
}

/// What holds behind a token, or why it cannot stand; `outer` has the flags around each group that is open.
pub fn behind_token(
    outer: &mut Vec<Flags>,
    flags: Flags,
    token: &Token<'_>,
    behind: Lexing,
    left: usize,
) -> Result<Result<Lexing, Fault>, AllocError>
    ensures { IfOk result (λ r. GoesBy (token_of token.now) outer.old.items flags
        behind left r outer.new.items) }
{
    match token {
        Token::Enclosing(enclosing) => {
            behind_opening(outer, flags, Opening::Enclosing(*enclosing), behind, left)
        }
        Token::Group(number) => {
            let opening = Opening::Group {
                number: *number,
                name: None,
            };
            behind_opening(outer, flags, opening, behind, left)
        }
        Token::Open(placed) => behind_opening(outer, flags, placed.opening, behind, left),
        Token::Close => Ok(leave(outer, behind, left)),
        _ => Ok(Ok(behind)),
    }
}

fn behind_opening(
    outer: &mut Vec<Flags>,
    flags: Flags,
    opening: Opening<'_>,
    behind: Lexing,
    left: usize,
) -> Result<Result<Lexing, Fault>, AllocError>
    ensures { IfOk result (λ r. GoesBy (Open (opening_of opening.entry)) outer.old.items flags
        behind left r outer.new.items) }
{
    match enter(outer, flags, opening, left)? {
        Ok(()) => Ok(Ok(behind)),
        Err(fault) => Ok(Err(fault)),
    }
}

/// How many groups a token opens.
pub fn opened_by(token: &Unboxed<'_>) -> usize
    ensures value { result ≡ opened_by (unboxed_of token.now) }
    ensures one { result ≤ 1 }
{
    match token {
        Unboxed::Token(Token::Group(_)) => 1,
        Unboxed::Token(Token::Open(placed)) => group_opened_by(placed.opening),
        Unboxed::Open(opening) => group_opened_by(*opening),
        _ => 0,
    }
}

fn group_opened_by(opening: Opening<'_>) -> usize
    ensures value { result ≡ group_opened_by (opening_of opening.entry) }
    ensures one { result ≤ 1 }
{
    match opening {
        Opening::Group { .. } => 1,
        _ => 0,
    }
}
