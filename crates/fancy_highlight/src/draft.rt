//! The tokens of a line while it is gone through, and the parts of it to which rules of captures apply.

use crate::rules::Capture;
use crate::scopes::Scopes;
use crate::tokens::Token;
use fancy_matches::found::Captures;
use std::alloc::{AllocError, Global};

/// A part of a line to which the rules of a capture apply.
#[derive(Clone, Copy)]
pub(crate) struct Part {
    pub(crate) start: usize,
    pub(crate) end: usize,
    /// The number of the rule whose rules these are.
    pub(crate) rule: usize,
    pub(crate) scope: usize,
}

/// A group of a match that is not ended yet.
#[derive(Clone, Copy)]
struct Open {
    end: usize,
    scope: usize,
}

/// The tokens up to a byte of a line.
#[derive(Drop)]
pub(crate) struct Draft {
    alloc: Global,
    pub(crate) tokens: Vec<Token>,
    /// The parts of the line to which rules of captures apply.
    pub(crate) parts: Vec<Part>,
    /// Where the last token ends.
    pub(crate) at: usize,
}

impl Draft {
    pub(crate) fn new(alloc: Global, at: usize) -> Draft {
        Draft {
            alloc,
            tokens: Vec::new(alloc),
            parts: Vec::new(alloc),
            at,
        }
    }

    /// Adds a token up to this byte, if it is further on.
    pub(crate) fn write_to(&mut self, end: usize, scope: usize) -> Result<(), AllocError> {
        if self.at < end {
            let start = self.at;
            self.tokens.push(Token { start, end, scope })?;
            self.at = end;
        }
        Ok(())
    }

    /// Ends the groups that end at this byte or before.
    fn close(&mut self, open: &mut Vec<Open>, to: usize) -> Result<(), AllocError> {
        for _ in 0..open.len() {
            match open.last().copied() {
                Some(group) if group.end <= to => self.write_to(group.end, group.scope)?,
                _ => return Ok(()),
            }
            let _ = open.pop();
        }
        Ok(())
    }

    /// Adds the tokens of a match in this scope: each group is within those around it.
    pub(crate) fn write_match(
        &mut self,
        scopes: &mut Scopes,
        captures: &Captures<'_>,
        groups: &[Capture],
        scope: usize,
    ) -> Result<(), AllocError> {
        let last = captures.whole().end();
        let mut open: Vec<Open> = Vec::new(self.alloc);
        for group in groups {
            let Some(taken) = captures.get(group.group) else {
                continue;
            };
            let (start, end) = (taken.start(), taken.end().min(last));
            if start >= end {
                continue;
            }
            self.close(&mut open, start)?;
            let around = match open.last() {
                Some(group) => group.scope,
                None => scope,
            };
            self.write_to(start, around)?;
            match group.rule {
                None => {
                    let scope = scopes.enter(around, &group.name, captures)?;
                    open.push(Open { end, scope })?;
                }
                Some(rule) => {
                    let scope = scopes.enter(scope, &group.name, captures)?;
                    self.parts.push(Part {
                        start,
                        end,
                        rule,
                        scope,
                    })?;
                    self.write_to(end, scope)?;
                }
            }
        }
        self.close(&mut open, last)?;
        self.write_to(last, scope)
    }

    /// Adds tokens up to a byte, from that with this index on; returns the index of the token in which the byte is.
    pub(crate) fn copy(
        &mut self,
        tokens: &[Token],
        from: usize,
        to: usize,
    ) -> Result<usize, AllocError> {
        for index in from..tokens.len() {
            let token = tokens[index];
            self.write_to(token.end.min(to), token.scope)?;
            if token.end > to {
                return Ok(index);
            }
        }
        Ok(tokens.len())
    }
}
