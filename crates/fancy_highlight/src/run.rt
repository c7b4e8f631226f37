//! A line, or a part of it to which rules of a capture apply, from match to match.

use crate::contexts::Contexts;
use crate::draft::Draft;
use crate::frames::{EndPlace, Frame, Stack, Tried, tried_at};
use crate::left_out::{Error, LeftOut};
use crate::names::Name;
use crate::references::end_pattern;
use crate::regions::Regions;
use crate::rules::{Capture, End, EndKind, Kind, Library, Region, Rule};
use crate::scopes::Scopes;
use crate::search::{Outcome, Search, Tree};
use crate::translation::Anchors;
use fancy_matches::found::Match;
use std::alloc::{AllocError, Global};

/// The rules that are left out, and the reports of those that are so from some byte of this line on.
#[derive(Drop)]
pub(crate) struct Omitted {
    pub(crate) rules: Vec<usize>,
    pub(crate) reports: Vec<LeftOut>,
}

/// Where a line is gone through up to.
#[derive(Drop)]
pub(crate) struct Run<'g, 'r, 't> {
    pub(crate) alloc: Global,
    pub(crate) library: &'g Library,
    pub(crate) contexts: &'r mut Contexts,
    pub(crate) scopes: &'r mut Scopes,
    pub(crate) omitted: &'r mut Omitted,
    pub(crate) search: Search<'r, 't>,
    pub(crate) draft: Draft,
    pub(crate) regions: Regions,
    /// It is the first line of its text.
    pub(crate) is_first: bool,
}

/// What a run gives.
#[derive(Drop)]
pub(crate) struct Ran {
    pub(crate) draft: Draft,
    /// The regions that are open at the end.
    pub(crate) stack: Stack,
    /// How many ends that refer back are compiled.
    pub(crate) made_count: usize,
}

/// A match, and the pattern that it is of.
#[derive(Clone, Copy)]
struct Found<'t> {
    tried: Tried,
    tree: Tree,
    whole: Match<'t>,
}

/// What the search for the next match gives.
#[derive(Drop)]
enum Next<'t> {
    Nothing,
    Found(Found<'t>),
    /// A pattern is refused.
    Refused(Tried, Error),
}

impl<'g, 'r, 't> Run<'g, 'r, 't> {
    /// The anchors that match where the last token ends.
    fn anchors(&self) -> Anchors {
        let at = self.draft.at;
        Anchors {
            start: self.is_first && at == 0,
            search: self.regions.anchor == Some(at),
        }
    }

    /// Leaves the rule of a pattern out from here on.
    fn leave_out(&mut self, tried: Tried, error: Error) -> Result<(), AllocError> {
        let report = self
            .library
            .report(self.alloc, tried.rule, tried.is_end, self.draft.at, error)?;
        self.omitted.reports.push(report)?;
        self.omitted.rules.push(tried.rule)?;
        Ok(())
    }

    /// Closes the innermost regions whose rules are left out.
    fn close_omitted(&mut self) {
        for _ in 0..self.regions.stack.frames.len() {
            let rule = self.regions.stack.top().rule;
            if !self.omitted.rules.contains(&rule) {
                return;
            }
            self.regions.close();
        }
    }

    /// The first match of the end and the rules that are in force; of several that begin there, that of the first one.
    fn find_next(&mut self) -> Result<Next<'t>, AllocError> {
        let (at, anchors, top) = (self.draft.at, self.anchors(), self.regions.stack.top());
        let context = self
            .contexts
            .of(self.library, self.scopes, top.rule, top.inner)?;
        let Some(context) = context else {
            return Ok(Next::Nothing);
        };
        let place = match top.end {
            EndPlace::Last(_) => context.last,
            _ => context.first,
        };
        let mut first: Option<Found<'t>> = None;
        for index in 0..=context.patterns.len() {
            let Some(tried) = tried_at(top.end(), place, &context.patterns, index) else {
                break;
            };
            if self.omitted.rules.contains(&tried.rule) {
                continue;
            }
            match self.search.find(tried.pattern, anchors, at)? {
                Outcome::Nothing => {}
                Outcome::Refused(error) => return Ok(Next::Refused(tried, error)),
                Outcome::Found { tree, whole } => {
                    if first.is_none_or(|found| whole.start() < found.whole.start()) {
                        first = Some(Found { tried, tree, whole });
                    }
                    if whole.start() == at {
                        break;
                    }
                }
            }
        }
        Ok(match first {
            Some(found) => Next::Found(found),
            None => Next::Nothing,
        })
    }

    /// The number of the pattern of a region's end, for a match of its begin.
    fn end_number(&mut self, end: &End, tree: Tree) -> Result<Option<usize>, AllocError> {
        match (end, self.search.captures(tree)) {
            (End::Never, _) => Ok(None),
            (End::Pattern(number), _) => Ok(Some(*number)),
            (End::Refers(_), None) => Ok(None),
            (End::Refers(end), Some(captures)) => {
                let pattern = end_pattern(self.alloc, captures, end.as_str())?;
                let number = self.search.patterns.number(pattern.as_str(), true)?;
                Ok(Some(number))
            }
        }
    }

    /// How the region ends that a match opens, if it opens one; an error, if its end is refused.
    fn end_place(&mut self, found: Found<'t>) -> Result<Result<EndPlace, Error>, AllocError> {
        let library = self.library;
        let Some(region) = library.region(found.tried.rule) else {
            return Ok(Ok(EndPlace::Never));
        };
        let Some(number) = self.end_number(&region.end, found.tree)? else {
            return Ok(Ok(EndPlace::Never));
        };
        if let Some(error) = self.search.check(number)? {
            return Ok(Err(error));
        }
        Ok(Ok(match region.end_kind {
            EndKind::First => EndPlace::First(number),
            EndKind::Last => EndPlace::Last(number),
            EndKind::While => EndPlace::While(number),
        }))
    }

    /// The next match, and how the region ends that it opens. Rules whose patterns are refused, or exceed a limit there, are
    /// left out, and so are their regions if they are open.
    fn find(&mut self) -> Result<Option<(Found<'t>, EndPlace)>, AllocError> {
        // Each iteration but the last leaves out one rule at least.
        for _ in 0..=self.library.rules.len() {
            self.close_omitted();
            let (tried, error) = match self.find_next()? {
                Next::Nothing => return Ok(None),
                Next::Refused(tried, error) => (tried, error),
                Next::Found(found) if found.tried.is_end => {
                    return Ok(Some((found, EndPlace::Never)));
                }
                Next::Found(found) => match self.end_place(found)? {
                    Ok(end) => return Ok(Some((found, end))),
                    Err(error) => {
                        let is_end = true;
                        (
                            Tried {
                                is_end,
                                ..found.tried
                            },
                            error,
                        )
                    }
                },
            };
            self.leave_out(tried, error)?;
        }
        Ok(None)
    }

    /// Adds the tokens of a match in this scope.
    fn write(&mut self, tree: Tree, groups: &[Capture], scope: usize) -> Result<(), AllocError> {
        if let Some(captures) = self.search.captures(tree) {
            self.draft
                .write_match(self.scopes, captures, groups, scope)?;
        }
        Ok(())
    }

    /// The scope of a rule's name within another one, for a match.
    fn enter(&mut self, outer: usize, name: &Name, tree: Tree) -> Result<usize, AllocError> {
        match self.search.captures(tree) {
            Some(captures) => self.scopes.enter(outer, name, captures),
            None => Ok(outer),
        }
    }

    /// Opens a region by a match that was searched for from a byte on; returns whether the line goes on.
    fn begin(
        &mut self,
        rule: &Rule,
        region: &Region,
        found: Found<'t>,
        place: EndPlace,
        from: usize,
    ) -> Result<bool, AllocError> {
        let Found { tried, tree, whole } = found;
        let around = self.regions.stack.top().inner;
        let outer = self.enter(around, &rule.name, tree)?;
        let inner = self.enter(outer, &region.content_name, tree)?;
        self.write(tree, &region.begin_captures, outer)?;
        let end = whole.end();
        if end <= from && self.regions.is_open_from(tried.rule, from) {
            return Ok(false);
        }
        let frame = Frame {
            rule: tried.rule,
            end: place,
            is_at_line_end: end == self.search.text().len(),
            outer,
            inner,
        };
        self.regions.open(frame, from, end)?;
        Ok(true)
    }

    /// Closes the innermost region by a match; returns whether the line goes on.
    fn end(&mut self, region: &Region, found: Found<'t>, from: usize) -> Result<bool, AllocError> {
        let outer = self.regions.stack.top().outer;
        self.write(found.tree, &region.end_captures, outer)?;
        if found.whole.end() <= from && self.regions.is_opened_from(from) {
            return Ok(false);
        }
        self.regions.close();
        Ok(true)
    }

    /// Goes on by the next match; returns whether the line goes on after it.
    fn step(&mut self) -> Result<bool, AllocError> {
        let from = self.draft.at;
        let Some((found, place)) = self.find()? else {
            return Ok(false);
        };
        let Found { tried, tree, whole } = found;
        let inner = self.regions.stack.top().inner;
        self.draft.write_to(whole.start(), inner)?;
        let library = self.library;
        let Some(rule) = library.rules.get(tried.rule) else {
            return Ok(false);
        };
        match &rule.kind {
            Kind::Region(region) if tried.is_end => self.end(region, found, from),
            Kind::Region(region) => self.begin(rule, region, found, place, from),
            Kind::Match { captures, .. } => {
                let scope = self.enter(inner, &rule.name, tree)?;
                self.write(tree, captures, scope)?;
                Ok(from < whole.end())
            }
            Kind::List | Kind::Foreign { .. } => Ok(false),
        }
    }

    /// Whether a region with a `while` goes on in this line.
    fn goes_on(&mut self, frame: Frame) -> Result<bool, AllocError> {
        let EndPlace::While(pattern) = frame.end else {
            return Ok(true);
        };
        let library = self.library;
        let Some(region) = library.region(frame.rule) else {
            return Ok(true);
        };
        let (anchors, at) = (self.anchors(), self.draft.at);
        match self.search.find(pattern, anchors, at)? {
            Outcome::Nothing => Ok(false),
            Outcome::Refused(error) => {
                let tried = Tried {
                    rule: frame.rule,
                    pattern,
                    is_end: true,
                };
                self.leave_out(tried, error)?;
                Ok(false)
            }
            Outcome::Found { tree, whole } => {
                self.draft.write_to(whole.start(), frame.inner)?;
                self.write(tree, &region.end_captures, frame.inner)?;
                self.regions.anchor = Some(whole.end());
                Ok(true)
            }
        }
    }

    /// Begins a line: closes the first region, from the outermost in, whose `while` has no match, and all regions in it.
    fn begin_line(&mut self) -> Result<(), AllocError> {
        if self.regions.stack.top().is_at_line_end {
            self.regions.anchor = Some(0);
        }
        for index in 0..self.regions.stack.whiles.len() {
            let Some(depth) = self.regions.stack.whiles.get(index).copied() else {
                break;
            };
            let Some(frame) = self.regions.stack.frames.get(depth).copied() else {
                break;
            };
            if !self.goes_on(frame)? {
                self.regions.stack.truncate(depth);
                break;
            }
        }
        Ok(())
    }

    /// Goes on to the end of the line.
    fn finish(&mut self) -> Result<(), AllocError> {
        // At each byte each rule opens one region at most, and each region that is open is closed.
        let rules = self.library.rules.len().saturating_add(1);
        let places = self.search.text().len().saturating_add(2);
        let opened = rules.saturating_mul(places).saturating_mul(2);
        for _ in 0..opened.saturating_add(self.regions.stack.frames.len()) {
            if !self.step()? {
                break;
            }
        }
        let (end, inner) = (self.search.text().len(), self.regions.stack.top().inner);
        self.draft.write_to(end, inner)
    }

    /// Goes through the line, or through a part of it.
    pub(crate) fn ran(mut self, is_line: bool) -> Result<Ran, AllocError> {
        if is_line {
            self.begin_line()?;
        }
        self.finish()?;
        Ok(self.into_ran())
    }

    /// The tokens and regions.
    fn into_ran(self) -> Ran {
        let made_count = self.search.made.tree_count();
        Ran {
            draft: self.draft,
            stack: self.regions.stack,
            made_count,
        }
    }
}
