//! `Highlighter`: the rules of grammars, ready to be applied.

ghost use Rattle.std.specs.Prelude.{IfOk};
ghost use Rattle.fancy_highlight.specs.LeftOut.{AreReported};
ghost use Rattle.fancy_highlight.specs.Tokens.{Covers};

use crate::error::GrammarError;
use crate::frames::Stack;
use crate::lines::Lines;
use crate::omitted::Reports;
use crate::reader::read_grammar;
use crate::scopes::Scopes;
use crate::state::State;
use crate::tokens::{Highlights, LineTokens};
use crate::writer::Writer;
use std::alloc::{AllocError, Global};

/// The rules of a grammar, and of those that it includes. A pattern is compiled when it is tried first.
#[derive(Drop)]
pub struct Highlighter {
    alloc: Global,
    lines: Lines,
    /// The scope of the grammar's own name.
    scope: usize,
}

impl Highlighter {
    /// Reads a grammar in the form of TextMate's, in JSON or as a property list in XML. What it has that no grammar should
    /// have is passed over.
    pub fn new(alloc: Global, rules: &str) -> Result<Highlighter, GrammarError> {
        let mut lines = Lines::new(alloc);
        lines.add(None, rules)?;
        let scope = lines.root_scope()?;
        Ok(Highlighter {
            alloc,
            lines,
            scope,
        })
    }

    /// Reads another grammar, which the rules may include by this name.
    pub fn add_grammar(&mut self, name: &str, rules: &str) -> Result<(), GrammarError> {
        self.lines.add(Some(name), rules)
    }

    /// The includes of other grammars that named nothing while lines were highlighted, each once: `name`, or `name#rule`. If
    /// [`add_grammar`](Highlighter::add_grammar) adds one, highlight these lines anew.
    pub fn wanted(&self) -> &[String] {
        &self.lines.contexts.wanted
    }

    /// The includes that name no rule of their own grammar, each once, behind the grammar's name.
    pub fn missing(&self) -> &[String] {
        &self.lines.library.missing
    }

    /// The scopes of all tokens so far, and their names.
    pub fn scopes(&self) -> &Scopes {
        &self.lines.scopes
    }

    /// The state before the first line of a text.
    pub fn state(&self) -> State {
        State {
            is_first: true,
            stack: Stack::new(self.alloc, 0, self.scope),
            left_out: Vec::new(self.alloc),
        }
    }

    /// The line in a state, with the line feed that it may lack.
    fn line(&mut self, line: &str, state: State) -> Result<LineTokens, AllocError> {
        if line.ends_with('\n') {
            return self.lines.line(line, state);
        }
        let whole = format!(in self.alloc; "{line}\n")?;
        self.lines.line(whole.as_str(), state)
    }

    /// The tokens of one line of a text, which may end in a line feed, and the state after it. Bytes count from the beginning
    /// of the line. The state before it is that after the line before, or [`state`](Highlighter::state). A rule is left out
    /// from that place on where a pattern of it is refused, or where a search for it exceeds a limit. The only error is out
    /// of memory.
    ///
    /// An editor keeps the state after each line. When a line changes, it asks for the tokens from that line on, until a
    /// state is what it was.
    pub fn tokens(&mut self, line: &str, state: &State) -> Result<LineTokens, AllocError>
        ensures covers { IfOk result (λ t. Covers line.now t.tokens.items) }
        ensures reported { IfOk result (λ t. AreReported line.now t.left_out.items) }
    {
        let found = self.line(line, state.clone()?)?;
        let mut writer = Writer::new(self.alloc, line);
        writer.write_all(0, &found.tokens)?;
        writer.write_rest(self.scope)?;
        let mut reports = Reports::new(self.alloc, line);
        reports.push_all(0, found.left_out)?;
        Ok(LineTokens {
            tokens: writer.into_tokens(),
            left_out: reports.into_reports(),
            state: found.state,
        })
    }

    /// The tokens of a text, from its start to its end: those of its lines, as [`tokens`](Highlighter::tokens) gives them.
    /// Bytes count from the beginning of the text. The only error is out of memory.
    pub fn highlight(&mut self, text: &str) -> Result<Highlights, AllocError>
        ensures covers { IfOk result (λ h. Covers text.now h.tokens.items) }
        ensures reported { IfOk result (λ h. AreReported text.now h.left_out.items) }
    {
        let mut writer = Writer::new(self.alloc, text);
        let mut reports = Reports::new(self.alloc, text);
        let mut state = self.state();
        let mut start = 0usize;
        for line in text.split_inclusive('\n') {
            let found = self.line(line, state)?;
            writer.write_all(start, &found.tokens)?;
            reports.push_all(start, found.left_out)?;
            start = start.saturating_add(line.len());
            state = found.state;
        }
        writer.write_rest(self.scope)?;
        Ok(Highlights {
            tokens: writer.into_tokens(),
            left_out: reports.into_reports(),
        })
    }
}
