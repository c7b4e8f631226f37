//! Lines, each with the parts of it to which rules of captures apply.

use crate::contexts::Contexts;
use crate::draft::Draft;
use crate::error::GrammarError;
use crate::frames::Stack;
use crate::patterns::Patterns;
use crate::reader::read_grammar;
use crate::regions::Regions;
use crate::rules::Library;
use crate::run::{Omitted, Ran, Run};
use crate::scopes::Scopes;
use crate::search::Search;
use crate::state::State;
use crate::tokens::LineTokens;
use fancy_scanner::scanner::TreeScanner;
use std::alloc::{AllocError, Global};

/// How deep captures with rules may be in one another.
const MOST_ROUNDS: usize = 16;

/// How many ends that refer back are kept compiled from one line to the next.
const MOST_MADE: usize = 256;

/// Grammars, and what is kept of them from one line to the next.
#[derive(Drop)]
pub(crate) struct Lines {
    pub(crate) alloc: Global,
    pub(crate) library: Library,
    pub(crate) patterns: Patterns,
    pub(crate) contexts: Contexts,
    pub(crate) scopes: Scopes,
    /// The compiled patterns of rules.
    rules: TreeScanner,
    /// The compiled ends that refer back.
    made: TreeScanner,
    /// How many there are.
    made_count: usize,
}

impl Lines {
    pub(crate) fn new(alloc: Global) -> Lines {
        Lines {
            alloc,
            library: Library::new(alloc),
            patterns: Patterns::new(alloc),
            contexts: Contexts::new(alloc),
            scopes: Scopes::new(alloc),
            rules: TreeScanner::new(alloc),
            made: TreeScanner::new(alloc),
            made_count: 0,
        }
    }

    /// Reads a grammar, under this name or else its own.
    pub(crate) fn add(&mut self, name: Option<&str>, rules: &str) -> Result<(), GrammarError> {
        self.contexts.clear();
        read_grammar(
            self.alloc,
            &mut self.library,
            &mut self.patterns,
            &mut self.scopes,
            name,
            rules,
        )
    }

    /// The scope of the first grammar's own name.
    pub(crate) fn root_scope(&mut self) -> Result<usize, AllocError> {
        let name = self.library.name();
        let number = self.scopes.name_number(name)?;
        self.scopes.enter_one(None, number)
    }

    /// Goes through a line, or from a byte on through a part of it that ends where the text does.
    fn run(
        &mut self,
        text: &str,
        stack: Stack,
        from: Option<usize>,
        is_first: bool,
        omitted: &mut Omitted,
    ) -> Result<Ran, AllocError> {
        let mut rules_cache = self.rules.create_cache();
        let mut made_cache = self.made.create_cache();
        let search = Search {
            alloc: self.alloc,
            patterns: &mut self.patterns,
            rules: self.rules.scan(text, &mut rules_cache),
            made: self.made.scan(text, &mut made_cache),
        };
        let run = Run {
            alloc: self.alloc,
            library: &self.library,
            contexts: &mut self.contexts,
            scopes: &mut self.scopes,
            omitted,
            search,
            draft: Draft::new(self.alloc, from.unwrap_or(0)),
            regions: Regions::new(self.alloc, stack),
            is_first,
        };
        run.ran(from.is_none())
    }

    /// Applies the rules of captures to the parts of a line, and puts the tokens there in place of those that there were.
    fn splice(
        &mut self,
        line: &str,
        draft: Draft,
        is_first: bool,
        omitted: &mut Omitted,
    ) -> Result<Draft, AllocError> {
        let mut out = Draft::new(self.alloc, 0);
        let mut next = 0;
        for part in &draft.parts {
            next = out.copy(&draft.tokens, next, part.start)?;
            let text = line.get(..part.end).unwrap_or("");
            let stack = Stack::new(self.alloc, part.rule, part.scope);
            let ran = self.run(text, stack, Some(part.start), is_first, omitted)?;
            out.copy(&ran.draft.tokens, 0, part.end)?;
            for inner in &ran.draft.parts {
                out.parts.push(*inner)?;
            }
        }
        out.copy(&draft.tokens, next, usize::MAX)?;
        Ok(out)
    }

    /// Goes through a line that ends in a line feed.
    pub(crate) fn line(&mut self, line: &str, state: State) -> Result<LineTokens, AllocError> {
        if self.made_count > MOST_MADE {
            self.made = TreeScanner::new(self.alloc);
            self.patterns.forget_made();
            self.made_count = 0;
        }
        let is_first = state.is_first;
        let mut omitted = Omitted {
            rules: state.left_out,
            reports: Vec::new(self.alloc),
        };
        let ran = self.run(line, state.stack, None, is_first, &mut omitted)?;
        self.made_count = ran.made_count;
        let mut draft = ran.draft;
        for _ in 0..MOST_ROUNDS {
            if draft.parts.is_empty() {
                break;
            }
            draft = self.splice(line, draft, is_first, &mut omitted)?;
        }
        let state = State {
            is_first: false,
            stack: ran.stack,
            left_out: omitted.rules,
        };
        Ok(LineTokens {
            tokens: draft.tokens,
            left_out: omitted.reports,
            state,
        })
    }
}
