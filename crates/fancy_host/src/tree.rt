//! A tree that was compiled, and its searches.

ghost use Rattle.std.specs.Prelude.{◌≡◌, [], IsTrue, MatchResult, None};
ghost use Rattle.fancy_meaning.specs.Fits.{run_fits};
ghost use Rattle.fancy_steps.specs.SearchLimits.{StaysWithin};
ghost use Rattle.fancy_search.specs.Scratches.{Suits, limits_of, passed_of};
ghost use Rattle.fancy_steps.specs.Tasks.{options_of as run_options_of, task_of};
ghost use Rattle.fancy_search.specs.Searches.{HasSource, program};
ghost use Rattle.fancy_matches.specs.Matchers.{cursor_of};
ghost use Rattle.fancy_replace.specs.Pieces.{as_limit};
ghost use Rattle.fancy_replace.specs.Reading.{groups_named};

use crate::cursor::FancyCursor;
use crate::names::{name_of, numbers_named};
use crate::options::FancyOptions;
use crate::outcome::{FancyOutcome, NO_MATCH, OK, write_answer};
use crate::rewriting::{rewrite, text_room, write_kept};
use crate::rows::{Groups, Row};
use fancy_expr::error::Error;
use fancy_matches::cursor::Cursor;
use fancy_matches::found::Match;
use fancy_matches::searches::next_found;
use fancy_replace::output::BoundedText;
use fancy_replace::replacer::NoExpand;
use fancy_replace::template::Template;
use fancy_search::scratch::Scratch;
use fancy_search::search::Compiled;
use fancy_vm::vm::RunOptions;
use std::alloc::Global;
use std::collections::BTreeMap;

/// What a pattern or a tree was compiled to, and the numbers of each name of its groups.
pub struct CompiledTree {
    pub compiled: Compiled,
    pub names: BTreeMap<String, Vec<usize>>,
    ghost source: { HasSource compiled },
}

// Not derived: whoever owns one calls this drop, and would prove a derived one again (docs/GATE.md).
impl Drop for CompiledTree {
    fn drop(self) {
        let CompiledTree {
            compiled: _,
            names: _,
        } = self;
    }
}

impl CompiledTree {
    ghost use Rattle.fancy_host.specs.Hosted.{Answers, compiled_of};
    ghost use Rattle.fancy_host.specs.Hosted as hosted;
    ghost use Rattle.fancy_host.specs.Lists.{Lists, Writes, all_groups, span_alone, width_of};
    ghost use Rattle.fancy_host.specs.Names.{name_in};
    ghost use Rattle.fancy_host.specs.Rewritten.{FailsToRewrite, HoldsRewritten, Replaces, writing};
    ghost use Rattle.fancy_host.specs.Whether.{Tells};

    /// The name of a group; empty where it has none.
    pub fn group_name(&self, group: usize) -> &str
        ensures { result.now ≡ name_in (hosted.names_of self.now) group }
    {
        name_of(&self.names, group)
    }

    /// The numbers of the groups with this name.
    pub fn groups_named(&self, name: &str) -> &[usize]
        ensures { result.now ≡ groups_named (hosted.names_of self.now) name.now }
    {
        numbers_named(&self.names, name)
    }

    /// How many groups the tree has, with group 0.
    pub fn group_count(&self) -> usize
        ensures { result ≡ hosted.groups self.now }
    {
        self.compiled.program().total_groups().saturating_add(1)
    }

    /// Searches the text, and writes the numbers of the answer as far as there is room.
    pub fn find(
        &self,
        alloc: Global,
        text: &str,
        options: &FancyOptions,
        spans: &mut [usize],
        scratch: &mut Scratch,
    ) -> FancyOutcome
        requires { Suits (compiled_of self.now) scratch.old }
        ensures suits { Suits (compiled_of self.now) scratch.new }
        ensures answers { Answers
            self.now
            text.now
            options.now
            (hosted.passed_in options.now scratch.new)
            spans.old
            spans.new
            result }
    {
        let running = options.running(text);
        if !self.compiled.fits(text, &running) {
            return FancyOutcome::unfit();
        }
        scratch.limit(options.limits());
        let answer = self.compiled.search(alloc, text, &running, scratch);
        write_answer(&answer, spans);
        FancyOutcome::of_answer(text.as_bytes(), &answer, scratch.passed())
    }

    /// Whether there is a match.
    pub fn is_match(
        &self,
        alloc: Global,
        text: &str,
        options: &FancyOptions,
        scratch: &mut Scratch,
    ) -> FancyOutcome
        requires { Suits (compiled_of self.now) scratch.old }
        ensures suits { Suits (compiled_of self.now) scratch.new }
        ensures tells { Tells
            self.now text.now options.now (hosted.passed_in options.now scratch.new) result }
    {
        let running = options.running(text);
        if !self.compiled.fits(text, &running) {
            return FancyOutcome::unfit();
        }
        scratch.limit(options.limits());
        let found = self.compiled.search(alloc, text, &running, scratch);
        FancyOutcome::of_found(&found, scratch.passed())
    }

    /// Writes the rows of the next matches of a list, while there is room.
    fn write_rows<'t, F: Row<'t>>(
        &self,
        alloc: Global,
        text: &'t str,
        options: &RunOptions,
        width: usize,
        cursor: &mut Cursor,
        room: &mut [usize],
        scratch: &mut Scratch,
    ) -> FancyOutcome
        requires fits { IsTrue (run_fits
            (task_of (program (compiled_of self.now)) [] options.now)) }
        requires width { width ≡ width_of F.form self.now }
        requires passed { passed_of scratch.old ≡ None }
        requires suits { Suits (compiled_of self.now) scratch.old }
        ensures limits { limits_of scratch.new ≡ limits_of scratch.old }
        ensures suits { Suits (compiled_of self.now) scratch.new }
        ensures writes { Writes
            F.form
            width
            (compiled_of self.now)
            text.now
            (run_options_of options.now)
            (passed_of scratch.new)
            (cursor_of cursor.old)
            room.old
            (cursor_of cursor.new)
            room.new
            result }
    {
        let mut at = 0;
        let mut count = 0;
        'rows: while room.len() - at >= width {
            match next_found::<F>(alloc, &self.compiled, text, options, cursor, scratch) {
                Ok(None) => return FancyOutcome::coded(NO_MATCH).with_count(count),
                Ok(Some(found)) => {
                    found.write(at, room);
                    at += width;
                    count += 1;
                }
                Err(error) => {
                    return FancyOutcome::of_failed(&error, scratch.passed()).with_count(count);
                }
            }
        }
        FancyOutcome::coded(OK).with_count(count)
    }

    /// Writes the rows of the next matches of a list, of this width, while there is room; it then
    /// stands after them.
    fn list<'t, F: Row<'t>>(
        &self,
        alloc: Global,
        text: &'t str,
        options: &FancyOptions,
        width: usize,
        cursor: &mut FancyCursor,
        room: &mut [usize],
        scratch: &mut Scratch,
    ) -> FancyOutcome
        requires width { width ≡ width_of F.form self.now }
        requires suits { Suits (compiled_of self.now) scratch.old }
        ensures suits { Suits (compiled_of self.now) scratch.new }
        ensures lists { Lists
            F.form
            self.now
            text.now
            options.now
            (hosted.passed_in options.now scratch.new)
            cursor.old
            room.old
            cursor.new
            room.new
            result }
    {
        let listing = options.listing(text);
        if !self.compiled.fits("", &listing) {
            return FancyOutcome::unfit();
        }
        scratch.limit(options.limits());
        let mut list = cursor.cursor();
        let outcome = self.write_rows::<F>(alloc, text, &listing, width, &mut list, room, scratch);
        *cursor = FancyCursor::of(&list);
        outcome
    }

    /// Writes the spans of the next matches of a list, while there is room; it then is after
    /// them.
    pub fn find_all(
        &self,
        alloc: Global,
        text: &str,
        options: &FancyOptions,
        cursor: &mut FancyCursor,
        spans: &mut [usize],
        scratch: &mut Scratch,
    ) -> FancyOutcome
        requires { Suits (compiled_of self.now) scratch.old }
        ensures suits { Suits (compiled_of self.now) scratch.new }
        ensures lists { Lists
            span_alone
            self.now
            text.now
            options.now
            (hosted.passed_in options.now scratch.new)
            cursor.old
            spans.old
            cursor.new
            spans.new
            result }
    {
        self.list::<Match<'_>>(alloc, text, options, 2, cursor, spans, scratch)
    }

    /// Writes the spans of all groups of these matches, this many numbers for each; the list then is after them.
    pub fn captures_all(
        &self,
        alloc: Global,
        text: &str,
        options: &FancyOptions,
        cursor: &mut FancyCursor,
        spans: &mut [usize],
        scratch: &mut Scratch,
    ) -> FancyOutcome
        requires { Suits (compiled_of self.now) scratch.old }
        ensures suits { Suits (compiled_of self.now) scratch.new }
        ensures lists { Lists
            all_groups
            self.now
            text.now
            options.now
            (hosted.passed_in options.now scratch.new)
            cursor.old
            spans.old
            cursor.new
            spans.new
            result }
    {
        let width = self.group_count().saturating_mul(2);
        self.list::<Groups>(alloc, text, options, width, cursor, spans, scratch)
    }

    /// The text with its first `limit` matches replaced, all of them where that is 0: by this text as it stands, or by
    /// what it says as a template. This many bytes of it are kept.
    fn replaced(
        &self,
        alloc: Global,
        text: &str,
        options: &RunOptions,
        limit: usize,
        is_literal: bool,
        replacement: &str,
        room: usize,
        scratch: &mut Scratch,
    ) -> Result<BoundedText, Error>
        requires fits { IsTrue (run_fits
            (task_of (program (compiled_of self.now)) [] options.now)) }
        requires passed { passed_of scratch.old ≡ None }
        requires suits { Suits (compiled_of self.now) scratch.old }
        ensures rewrites { MatchResult
            result
            (HoldsRewritten
            (compiled_of self.now) text.now (run_options_of options.now) (as_limit limit)
            (writing self.now is_literal replacement.now) room)
            (FailsToRewrite
            (compiled_of self.now) text.now (run_options_of options.now) (as_limit limit)) }
        ensures limits { limits_of scratch.new ≡ limits_of scratch.old }
        ensures suits { Suits (compiled_of self.now) scratch.new }
        ensures stays { StaysWithin result (passed_of scratch.new) }
    {
        if is_literal {
            let replacer = NoExpand(replacement);
            return rewrite(
                alloc,
                &self.compiled,
                text,
                options,
                limit,
                &replacer,
                room,
                scratch,
            );
        }
        let template = Template::new(alloc, replacement, &self.names)?;
        rewrite(
            alloc,
            &self.compiled,
            text,
            options,
            limit,
            &template,
            room,
            scratch,
        )
    }

    /// Writes as much of that text as there is room for, with a zero at its end.
    pub fn replace(
        &self,
        alloc: Global,
        text: &str,
        options: &FancyOptions,
        limit: usize,
        is_literal: bool,
        replacement: &str,
        room: &mut [u8],
        scratch: &mut Scratch,
    ) -> FancyOutcome
        requires { Suits (compiled_of self.now) scratch.old }
        ensures suits { Suits (compiled_of self.now) scratch.new }
        ensures replaces { Replaces
            self.now
            text.now
            options.now
            (hosted.passed_in options.now scratch.new)
            limit
            (writing self.now is_literal replacement.now)
            room.old
            room.new
            result }
    {
        let listing = options.listing(text);
        if !self.compiled.fits("", &listing) {
            return FancyOutcome::unfit();
        }
        scratch.limit(options.limits());
        match self.replaced(
            alloc,
            text,
            &listing,
            limit,
            is_literal,
            replacement,
            text_room(room),
            scratch,
        ) {
            Ok(new) => write_kept(&new, room),
            Err(error) => FancyOutcome::of_failed(&error, scratch.passed()),
        }
    }
}
