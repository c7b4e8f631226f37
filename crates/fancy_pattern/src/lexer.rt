//! The lexer: from the characters of a pattern to its tokens, with the place of each.

ghost use Rattle.std.specs.Prelude.{◌≡◌, ◌+◌, ◌^◌, ◌<◌, ◌≤◌, length};
ghost use Rattle.fancy_meaning.specs.WellFormed.{most_groups};

use crate::boxed::{Counted, boxed};
use crate::characters::skip_gap;
use crate::items::{closing_at, found_at, group_at, literal_at, lone_at, no_class};
use fancy_tokens::error::{ErrorKind, Fault};
use fancy_tokens::flags::Flags;
use fancy_tokens::lexing::{ClassPlace, Head, Lexing};
use fancy_tokens::nesting::{behind_token, enter};
use fancy_tokens::tokens::{Opening, Placed, Token};
use std::alloc::{AllocError, Global};

/// What is known when a pattern has been read up to some character.
#[derive(Drop)]
pub struct Lexer<'a> {
    pub alloc: Global,
    /// What is left to read.
    pub rest: &'a [char],
    pub counted: Counted<'a>,
    pub now: Lexing,
    /// The flags around each group that is open, the innermost last.
    pub outer: Vec<Flags>,
    pub tokens: Vec<Placed<'a>>,
    ghost few: { now.opened ≤ most_groups },
    ghost shallow: { now.class.depth + length rest.now < 2 ^ 63 },
}

impl<'a> Lexer<'a> {
    ghost use Rattle.std.specs.Prelude.{[], ◌∷◌, ◌++◌, map, Ok, IfOk, OnOk, true, false};
    ghost use Rattle.fancy_pattern.specs.Items.{found_at, lone_found, IsLone};
    ghost use Rattle.fancy_pattern.specs.Lone.{found_token, lone_in, next_group};
    ghost use Rattle.fancy_pattern.specs.Lexing.{at_start, IsAtToken, Lexes};
    ghost use Rattle.fancy_pattern.specs.LexerViews.{state_of, text_of, placed_in, Steps, Pushes};
    ghost use Rattle.fancy_tokens.specs.PatternViews.{placed_of, token_of};
    ghost use Rattle.fancy_tokens.specs.Tokens.{Close, placed, broken};

    /// A token takes a character at least, so there is room for all of them.
    fn new(alloc: Global, flags: Flags, chars: &'a [char]) -> Result<Lexer<'a>, AllocError>
        ensures state { IfOk result (λ l. state_of l ≡ at_start flags) }
        ensures text { IfOk result (λ l. text_of l ≡ chars.now) }
        ensures tokens { IfOk result (λ l. placed_in l ≡ []) }
    {
        let tokens = Vec::with_capacity(alloc, chars.len())?;
        Ok(Lexer {
            alloc,
            rest: chars,
            counted: Counted { rest: chars, at: 0 },
            now: Lexing {
                flags,
                opened: 0,
                class: ClassPlace {
                    depth: 0,
                    head: Head::Inner,
                },
            },
            outer: Vec::new(alloc),
            tokens,
        })
    }

    #[inline(always)]
    fn push(&mut self, left: usize, token: Token<'a>) -> Result<(), AllocError>
        ensures { OnOk result (Pushes (placed left (token_of token.entry)) self.old self.new) }
    {
        self.tokens.push(Placed { left, token })?;
        Ok(())
    }

    /// What is left cannot be read.
    #[cold]
    #[inline(never)]
    fn break_off(&mut self, fault: Fault) -> Result<bool, AllocError>
        ensures { IfOk result (λ more. (more ≡ false) × Pushes (broken fault) self.old self.new) }
    {
        self.push(fault.left, Token::Broken(fault.kind))?;
        Ok(false)
    }

    /// Goes past a token behind which only the class changes.
    #[inline(always)]
    fn pass_lone(
        &mut self,
        token: Token<'a>,
        class: ClassPlace,
        after: &'a [char],
    ) -> Result<bool, AllocError>
        requires token { IsAtToken (state_of self.old) (text_of self.old) }
        requires found { found_at self.old.now self.old.rest.now
            ≡ Ok (lone_in self.old.now (token_of token) class, after.now) }
        requires lone { IsLone (token_of token) }
        requires shorter { length after.now < length self.old.rest.now }
        requires shallow { class.depth + length after.now < 2 ^ 63 }
        ensures goes_on { IfOk result (λ more. more ≡ true) }
        ensures steps { IfOk result (λ more. Steps more self.old self.new) }
        ensures shorter { IfOk result (λ more. length self.new.rest.now
            < length self.old.rest.now) }
    {
        self.push(self.rest.len(), token)?;
        self.rest = after;
        self.now.class = class;
        Ok(true)
    }

    /// Goes past the token at the front, and returns whether the text goes on.
    fn pass(
        &mut self,
        token: Token<'a>,
        behind: Lexing,
        after: &'a [char],
    ) -> Result<bool, AllocError>
        requires token { IsAtToken (state_of self.old) (text_of self.old) }
        requires found { found_at self.old.now self.old.rest.now
            ≡ Ok (found_token (token_of token) behind, after.now) }
        requires shorter { length after.now < length self.old.rest.now }
        requires few { behind.opened ≤ most_groups }
        requires shallow { behind.class.depth + length after.now < 2 ^ 63 }
        ensures steps { IfOk result (λ more. Steps more self.old self.new) }
        ensures shorter { IfOk result (λ more. more ≡ true
            → length self.new.rest.now < length self.old.rest.now) }
    {
        let left = self.rest.len();
        match behind_token(&mut self.outer, self.now.flags, &token, behind, left)? {
            Ok(now) => {
                self.push(left, token)?;
                self.rest = after;
                self.now = now;
                Ok(true)
            }
            Err(fault) => self.break_off(fault),
        }
    }

    /// Goes past the token at the front, and returns whether the text goes on.
    fn next_token(&mut self) -> Result<bool, AllocError>
        requires { IsAtToken (state_of self.old) (text_of self.old) }
        ensures steps { IfOk result (λ more. Steps more self.old self.new) }
        ensures shorter { IfOk result (λ more. more ≡ true
            → length self.new.rest.now < length self.old.rest.now) }
    {
        match found_at(self.now, self.rest) {
            Ok((found, after)) => {
                let token = boxed(self.alloc, &mut self.counted, self.rest, found.token)?;
                self.pass(token, found.behind, after)
            }
            Err(fault) => self.break_off(fault),
        }
    }

    /// Goes past the parenthesis at the front that ends a group, and returns whether the text goes on.
    #[inline(always)]
    fn pass_closing(&mut self, after: &'a [char]) -> Result<bool, AllocError>
        requires token { IsAtToken (state_of self.old) (text_of self.old) }
        requires found { found_at self.old.now self.old.rest.now
            ≡ Ok (lone_found self.old.now Close, after.now) }
        requires shorter { length after.now < length self.old.rest.now }
        ensures steps { IfOk result (λ more. Steps more self.old self.new) }
        ensures shorter { IfOk result (λ more. more ≡ true
            → length self.new.rest.now < length self.old.rest.now) }
    {
        let left = self.rest.len();
        match self.outer.pop() {
            Some(flags) => {
                self.push(left, Token::Close)?;
                self.rest = after;
                self.now.flags = flags;
                self.now.class = no_class();
                Ok(true)
            }
            None => self.break_off(Fault {
                left,
                kind: ErrorKind::UnopenedCloseParen,
            }),
        }
    }

    /// Goes past the parenthesis at the front that begins a plain group, and returns whether the text goes on.
    #[inline(always)]
    fn pass_group(&mut self, after: &'a [char]) -> Result<bool, AllocError>
        requires token { IsAtToken (state_of self.old) (text_of self.old) }
        requires found { found_at self.old.now self.old.rest.now
            ≡ Ok (next_group self.old.now, after.now) }
        requires few { self.old.now.opened + 1 ≤ most_groups }
        requires shorter { length after.now < length self.old.rest.now }
        ensures steps { IfOk result (λ more. Steps more self.old self.new) }
        ensures shorter { IfOk result (λ more. more ≡ true
            → length self.new.rest.now < length self.old.rest.now) }
    {
        let left = self.rest.len();
        let number = self.now.opened + 1;
        let opening = Opening::Group { number, name: None };
        match enter(&mut self.outer, self.now.flags, opening, left)? {
            Ok(()) => {
                self.push(left, Token::Group(number))?;
                self.rest = after;
                self.now.opened = number;
                self.now.class = no_class();
                Ok(true)
            }
            Err(fault) => self.break_off(fault),
        }
    }

    /// Goes past the gap or the token at the front, and returns whether the text goes on.
    #[inline(never)]
    fn next_other(&mut self) -> Result<bool, AllocError>
        ensures steps { IfOk result (λ more. Steps more self.old self.new) }
        ensures shorter { IfOk result (λ more. more ≡ true
            → length self.new.rest.now < length self.old.rest.now) }
    {
        if self.now.class.depth == 0 {
            if self.rest.is_empty() {
                return Ok(false);
            }
            if let Some(after) = skip_gap(self.rest, self.now.flags.ignore_whitespace) {
                self.rest = after;
                return Ok(true);
            }
        }
        self.next_token()
    }

    /// The same, where parentheses of plain groups are found at once.
    #[inline(always)]
    fn next_parenthesis(&mut self) -> Result<bool, AllocError>
        ensures steps { IfOk result (λ more. Steps more self.old self.new) }
        ensures shorter { IfOk result (λ more. more ≡ true
            → length self.new.rest.now < length self.old.rest.now) }
    {
        if let Some(after) = closing_at(&self.now, self.rest) {
            return self.pass_closing(after);
        }
        match group_at(&self.now, self.rest) {
            Some(after) => self.pass_group(after),
            None => self.next_other(),
        }
    }

    /// Goes past the characters at the front that stand for themselves.
    #[inline(always)]
    fn pass_literals(&mut self) -> Result<(), AllocError>
        ensures steps { IfOk result (λ u. Steps true self.old self.new) }
        ensures shorter { IfOk result (λ u. length self.new.rest.now
            ≤ length self.old.rest.now) }
    {
        while let Some((token, class, after)) = literal_at(&self.now, self.rest) {
            self.pass_lone(token, class, after)?;
        }
        Ok(())
    }

    /// Goes past what is at the front, and returns whether the text goes on; most tokens are found at once.
    #[inline(always)]
    fn next(&mut self) -> Result<bool, AllocError>
        ensures steps { IfOk result (λ more. Steps more self.old self.new) }
        ensures shorter { IfOk result (λ more. more ≡ true
            → length self.new.rest.now < length self.old.rest.now) }
    {
        self.pass_literals()?;
        match lone_at(&self.now, self.rest) {
            Some((token, class, after)) => self.pass_lone(token, class, after),
            None => self.next_parenthesis(),
        }
    }

    /// The tokens of a pattern that begins with these flags.
    pub(crate) fn tokens(
        alloc: Global,
        flags: Flags,
        chars: &'a [char],
    ) -> Result<Vec<Placed<'a>>, AllocError>
        ensures { IfOk result (λ tokens. Lexes
            (at_start flags) chars.now
            (map placed_of tokens.items)) }
    {
        let mut lexer = Lexer::new(alloc, flags, chars)?;
        while lexer.next()? {}
        Ok(lexer.tokens)
    }
}
