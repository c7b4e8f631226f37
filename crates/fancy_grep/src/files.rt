//! A search of files, folders and standard input.

ghost use Rattle.std.specs.Prelude.{◌≡◌, ◌&&◌, ◌||◌, is_some};
ghost use Rattle.fancy_grep.specs.Reports.{exit_status, is_nothing};

use crate::excerpt::push_excerpt;
use crate::globs::chars_of;
use crate::ignores::Ignores;
use crate::matching::{Cause, Failure};
use crate::output::Output;
use crate::patterns::{Extent, Matcher, PatternOptions, alternation, matcher_of};
use crate::reports::{Part, Search};
use crate::rules::{Entry, Rules};
use crate::settings::{Report, Settings};
use fancy_faults::fault::{Fault, fault_of};
use fancy_info::context::AnalyzeContext;
use fancy_input::blocks::{BlockError, Blocks};
use fancy_input::marks::TextReader;
use fancy_input::pieces::{Piece, read_as, split_piece};
use fancy_pattern::pattern::parse_tree;
use fancy_regex::{CompileError, Error};
use std::alloc::{AllocError, Global};
use std::fs::{DirEntry, File};
use std::io::{ErrorKind, IsTerminal, Read, Stdout};
use std::{fs, io};

/// How many bytes a read of a file requests.
const BLOCK: usize = 131_072;

/// A search of files.
#[derive(Drop)]
struct Run<'r> {
    rt: &'r HostRuntime,
    matcher: Matcher,
    out: Output<Stdout>,
    ignores: Ignores,
    report: Report,
    is_silent: bool,
    /// A line was selected.
    is_selected: bool,
    /// Something could not be read, searched or written.
    has_failed: bool,
}

impl<'r> Run<'r> {
    /// The status of the program, as of grep.
    fn status(&self) -> u8
        ensures { result
            ≡ exit_status self.now.report self.now.is_selected (self.now.has_failed || is_some (self.now.out).error) }
    {
        if self.is_found() {
            0
        } else if self.has_failed || self.out.error().is_some() {
            2
        } else if self.is_selected {
            0
        } else {
            1
        }
    }

    /// Whether a line was selected, and that is all that is asked.
    fn is_found(&self) -> bool
        ensures { result ≡ (self.now.is_selected && is_nothing self.now.report) }
    {
        self.is_selected && matches!(self.report, Report::Nothing)
    }

    /// Whether nothing more can be written.
    fn is_closed(&self) -> bool {
        self.is_found() || self.out.error().is_some()
    }

    /// Writes what is kept, and returns the status. A closed pipe is not reported.
    fn end(&mut self) -> u8
        ensures { result
            ≡ exit_status self.new.report self.new.is_selected (self.new.has_failed || is_some (self.new.out).error) }
    {
        self.out.flush();
        if let Some(error) = self.out.error() {
            if error.kind() != ErrorKind::BrokenPipe {
                let _unwritten = eprintln!(self.rt; "fancygrep: write error: {error}");
            }
        }
        self.status()
    }

    /// Reports on standard error that something could not be read, unless that is not asked for.
    fn fail(&mut self, what: &str, error: &io::Error) {
        self.has_failed = true;
        if self.is_silent {
            return;
        }
        self.out.flush();
        let _unwritten = eprintln!(self.rt; "fancygrep: {what}: {error}");
    }

    /// The same of a search, with its line, if it is known.
    fn fail_search(&mut self, name: &str, failure: &Failure) {
        self.has_failed = true;
        self.out.flush();
        let number = failure.number;
        let _unwritten = match &failure.cause {
            Cause::Search(error) if number == 0 => eprintln!(self.rt; "fancygrep: {name}: {error}"),
            Cause::Search(error) => eprintln!(self.rt; "fancygrep: {name}: line {number}: {error}"),
            Cause::UsedUp => eprintln!(self.rt;
                "fancygrep: {name}: line {number}: the searches of this file take too much, so lines from this one on were not searched"
            ),
        };
    }

    /// The same of a line that does not fit the memory.
    fn fail_line(&mut self, name: &str, number: usize) {
        self.has_failed = true;
        self.out.flush();
        let _unwritten = eprintln!(self.rt;
            "fancygrep: {name}: line {number}: out of memory, the line is too long"
        );
    }

    /// Searches lines of a file, and returns whether the search goes on: after each error but out of memory it does not.
    fn search_part(&mut self, search: &mut Search<'_>, name: &str, part: Part<'_>) -> bool {
        let mut left = part;
        for _ in 0..u64::MAX {
            match search.search(&mut self.out, &mut self.matcher, left) {
                None => return true,
                Some((failure, rest)) => {
                    self.fail_search(name, &failure);
                    if !matches!(failure.cause, Cause::Search(Error::Memory)) {
                        return false;
                    }
                    left = rest;
                }
            }
        }
        false
    }

    /// Searches a line that is not all UTF-8. Its line end is no part of what it reads as.
    fn search_broken(
        &mut self,
        search: &mut Search<'_>,
        name: &str,
        line: &[u8],
        start: usize,
    ) -> bool {
        let bytes = line.strip_suffix(b"\n").unwrap_or(line);
        match read_as(self.rt.alloc(), bytes) {
            Ok(text) => {
                let part = Part {
                    text: text.as_str(),
                    bytes: line,
                    start,
                    is_broken: true,
                };
                self.search_part(search, name, part)
            }
            Err(_) => {
                self.fail_line(name, search.next_number());
                search.skip_line();
                true
            }
        }
    }

    /// Searches a block of a file, and returns whether the search goes on.
    fn search_block(&mut self, search: &mut Search<'_>, name: &str, block: &[u8]) -> bool {
        search.read(block);
        let mut left = block;
        for _ in 0..block.len() {
            if left.is_empty() {
                break;
            }
            let (piece, rest) = split_piece(left);
            let start = search.place(left);
            let goes_on = match piece {
                Piece::Text(text) => self.search_part(search, name, Part::of_text(text, start)),
                Piece::Broken(line) => self.search_broken(search, name, line, start),
            };
            if !goes_on || search.is_done() || self.is_closed() {
                return false;
            }
            left = rest;
        }
        true
    }

    /// Searches a source block by block. What is kept is written before a read that may wait.
    fn search_blocks<R: Read>(
        &mut self,
        search: &mut Search<'_>,
        name: &str,
        blocks: &mut Blocks<R>,
    ) {
        for _ in 0..u64::MAX {
            let goes_on = match blocks.advance() {
                Ok(true) => self.search_block(search, name, blocks.block()),
                Ok(false) => false,
                Err(BlockError::Io(error)) => {
                    self.fail(name, &error);
                    false
                }
                Err(BlockError::LineTooLong) => {
                    self.fail_line(name, search.next_number());
                    search.skip_line();
                    search.can_skip() && blocks.skip_line().is_ok()
                }
            };
            if !goes_on {
                break;
            }
            if blocks.is_short() {
                self.out.flush();
            }
        }
    }

    /// Searches a source, and writes what is asked for of it.
    fn search_source<R: Read + Drop>(
        &mut self,
        settings: &Settings<'_>,
        name: &str,
        reader: R,
    ) -> Result<(), AllocError> {
        let alloc = self.rt.alloc();
        let mut search = Search::new(alloc, *settings, name, !self.is_selected);
        let mut blocks = Blocks::new(alloc, TextReader::new(alloc, reader), BLOCK)?;
        self.search_blocks(&mut search, name, &mut blocks);
        self.is_selected = self.is_selected || search.is_selected();
        search.finish(&mut self.out)?;
        if search.is_untold && settings.report.has_lines() {
            self.out.flush();
            let _unwritten = eprintln!(self.rt; "fancygrep: {name}: binary file matches");
        }
        Ok(())
    }

    fn search_file(&mut self, settings: &Settings<'_>, path: &str) -> Result<(), AllocError> {
        match File::open(self.rt, path) {
            Ok(file) => self.search_source(settings, path, file),
            Err(error) => {
                self.fail(path, &error);
                Ok(())
            }
        }
    }

    /// The paths of a folder's entries that are searched, in order. That of a folder ends in `/`. An entry that cannot be
    /// read is reported, and the others are there.
    fn entries(&mut self, rules: Rules<'_>, folder: &str, whole: &str) -> io::Result<Vec<String>> {
        let alloc = self.rt.alloc();
        if !rules.has_ignored {
            self.ignores.enter(self.rt, whole)?;
        }
        let mut paths = Vec::new(alloc);
        for entry in fs::read_dir(self.rt, if folder.is_empty() { "." } else { folder })? {
            match entry {
                Ok(entry) => self.add_entry(rules, &mut paths, folder, whole, &entry)?,
                Err(error) => self.fail(folder, &error),
            }
        }
        paths.sort()?;
        Ok(paths)
    }

    /// Adds the path of an entry, if it is searched.
    fn add_entry(
        &mut self,
        rules: Rules<'_>,
        paths: &mut Vec<String>,
        folder: &str,
        whole: &str,
        entry: &DirEntry,
    ) -> Result<(), AllocError> {
        let name = entry.file_name();
        let path = format!(in self.rt.alloc(); "{folder}{name}")?;
        let is_folder = match entry.file_type() {
            Ok(kind) if kind.is_dir() => true,
            Ok(kind) if kind.is_file() => false,
            Ok(_) => return Ok(()),
            Err(error) => {
                self.fail(path.as_str(), &error);
                return Ok(());
            }
        };
        if self.is_entry_searched(rules, path.as_str(), whole, name, is_folder)? {
            let end = if is_folder { "/" } else { "" };
            paths.push(format!(in self.rt.alloc(); "{path}{end}")?)?;
        }
        Ok(())
    }

    /// Whether an entry of a folder is searched, which has this whole path.
    fn is_entry_searched(
        &self,
        rules: Rules<'_>,
        path: &str,
        whole: &str,
        name: &str,
        is_folder: bool,
    ) -> Result<bool, AllocError> {
        let alloc = self.rt.alloc();
        let path = chars_of(alloc, path.strip_prefix("./").unwrap_or(path))?;
        let mut whole = chars_of(alloc, whole)?;
        let name = chars_of(alloc, name)?;
        whole.extend_from_slice(&name)?;
        let entry = Entry {
            path: &whole,
            name: &name,
            is_folder,
        };
        let by_ignores = self.ignores.decision(alloc, entry)?;
        rules.has_entry(
            alloc,
            Entry {
                path: &path,
                ..entry
            },
            by_ignores,
        )
    }

    /// Searches a file, or adds a folder's entries to what is left, the first one last.
    fn search_entry(
        &mut self,
        settings: &Settings<'_>,
        root: Root<'_>,
        path: &str,
        left: &mut Vec<String>,
    ) -> Result<(), AllocError> {
        if !path.is_empty() && !path.ends_with('/') {
            return self.search_file(settings, path);
        }
        let whole = root.whole_path(self.rt.alloc(), path)?;
        match self.entries(settings.rules, path, whole.as_str()) {
            Ok(mut paths) => {
                while let Some(path) = paths.pop() {
                    left.push(path)?;
                }
            }
            Err(error) => self.fail(path, &error),
        }
        Ok(())
    }

    /// Searches the files in a folder and in those below it, with their names. The working folder has no name.
    fn search_folder(&mut self, settings: &Settings<'_>, folder: &str) -> Result<(), AllocError> {
        let alloc = self.rt.alloc();
        let settings = Settings {
            has_names: Some(settings.has_names.unwrap_or(true)),
            ..*settings
        };
        let end = if folder.is_empty() || folder.ends_with('/') {
            ""
        } else {
            "/"
        };
        let folder = format!(in alloc; "{folder}{end}")?;
        let whole = whole_path(self.rt, folder.as_str())?;
        let root = Root {
            folder: folder.as_str(),
            whole: whole.as_str(),
        };
        if !settings.rules.has_ignored {
            self.ignores.enter_above(self.rt, root.whole)?;
        }
        let mut left = Vec::new(alloc);
        left.push(folder.clone()?)?;
        for _ in 0..u64::MAX {
            match left.pop() {
                Some(path) if !self.is_closed() => {
                    self.search_entry(&settings, root, path.as_str(), &mut left)?;
                }
                _ => break,
            }
        }
        Ok(())
    }

    /// Searches each file, and each folder if that is asked for. Without a path it searches the working folder.
    fn search_paths(&mut self, settings: &Settings<'_>, paths: &[&str]) -> Result<(), AllocError> {
        if paths.is_empty() {
            return self.search_folder(settings, "");
        }
        for path in paths {
            if self.is_closed() {
                break;
            }
            self.search_path(settings, path)?;
        }
        Ok(())
    }

    /// Searches a file, or standard input if its path is `-`, or a folder if that is asked for.
    fn search_path(&mut self, settings: &Settings<'_>, path: &str) -> Result<(), AllocError> {
        if path == "-" {
            return self.search_source(settings, "(standard input)", self.rt.stdin());
        }
        let name = chars_of(self.rt.alloc(), path)?;
        let rules = settings.rules;
        if settings.is_recursive && is_folder(self.rt, path) {
            if path == "." || rules.has_folder(self.rt.alloc(), &name)? {
                self.search_folder(settings, path)?;
            }
        } else if self.is_searched(rules, path, &name)? {
            self.search_file(settings, path)?;
        }
        Ok(())
    }

    /// Whether a file that is given is searched. What is no file is, which then is reported.
    fn is_searched(&self, rules: Rules<'_>, path: &str, name: &[char]) -> Result<bool, AllocError> {
        match fs::metadata(self.rt, path) {
            Ok(metadata) if !metadata.is_dir() => rules.has_file(self.rt.alloc(), name),
            _ => Ok(true),
        }
    }
}

/// A folder that is searched with what is below it.
#[derive(Clone, Copy)]
struct Root<'r> {
    /// Its path as it is given, with a `/` at its end; of the working folder nothing.
    folder: &'r str,
    /// Its whole path, with a `/` at its end.
    whole: &'r str,
}

impl<'r> Root<'r> {
    /// The whole path of what is in it, by the path that is written.
    fn whole_path(self, alloc: Global, path: &str) -> Result<String, AllocError> {
        let rest = path.strip_prefix(self.folder).unwrap_or(path);
        let whole = self.whole;
        format!(in alloc; "{whole}{rest}")
    }
}

/// The whole path of a folder, with a `/` at its end; if it cannot be found, its path as it is given.
fn whole_path(rt: &HostRuntime, folder: &str) -> Result<String, AllocError> {
    let alloc = rt.alloc();
    let path = if folder.is_empty() { "." } else { folder };
    match fs::canonicalize(rt, path) {
        Ok(whole) => {
            let whole = whole.as_path().as_str().trim_end_matches('/');
            format!(in alloc; "{whole}/")
        }
        Err(_) => String::from_str(alloc, folder),
    }
}

/// Whether the path names a folder.
fn is_folder(rt: &HostRuntime, path: &str) -> bool {
    match fs::metadata(rt, path) {
        Ok(metadata) => metadata.is_dir(),
        Err(_) => false,
    }
}

/// Why a pattern is refused, in words, and the place in the pattern as it was given, if there is one.
#[derive(Drop)]
struct Refusal {
    text: String,
    place: Option<usize>,
}

/// What is said of a pattern that can be read and is refused.
fn refusal_of(
    alloc: Global,
    pattern: &str,
    options: PatternOptions,
    refused: &CompileError,
) -> Result<Refusal, AllocError> {
    let context = AnalyzeContext {
        leftmost_longest: options.longest,
        ..AnalyzeContext::default()
    };
    let Fault { at, message } = fault_of(alloc, pattern, options.parsing(), context, refused)?;
    let Some(byte) = at else {
        return Ok(Refusal {
            text: message,
            place: None,
        });
    };
    let why = message.as_str();
    Ok(Refusal {
        text: format!(in alloc; "at byte {byte}: {why}")?,
        place: Some(byte),
    })
}

/// What is said of the error of a pattern that was searched for with what is put around it.
fn described(
    alloc: Global,
    pattern: &str,
    options: PatternOptions,
    error: &Error,
) -> Result<Refusal, AllocError> {
    match error {
        Error::ParseError(at, kind) => {
            let (before, _) = options.extent.around();
            let at = at.saturating_sub(before.len()).min(pattern.len());
            let error = Error::ParseError(at, *kind);
            Ok(Refusal {
                text: format!(in alloc; "{error}")?,
                place: Some(at),
            })
        }
        Error::CompileError(refused) if !options.is_text => {
            refusal_of(alloc, pattern, options, refused)
        }
        error => Ok(Refusal {
            text: format!(in alloc; "{error}")?,
            place: None,
        }),
    }
}

/// The fault that the pattern has by itself, which what is put around it could hide.
fn fault_alone(rt: &HostRuntime, pattern: &str, options: PatternOptions) -> Option<Error> {
    if options.is_text {
        return None;
    }
    match parse_tree(rt.alloc(), pattern, options.parsing()) {
        Ok(_) => None,
        Err(error) => Some(Error::from(error)),
    }
}

/// Reports on standard error why there is no regex of the pattern. The place of a fault is in bytes of the pattern as it was
/// given, and shown below it.
fn refuse(
    rt: &HostRuntime,
    pattern: &str,
    options: PatternOptions,
    error: Error,
) -> Result<u8, AllocError> {
    let refusal = described(rt.alloc(), pattern, options, &error)?;
    let why = refusal.text.as_str();
    let mut text = format!(in rt.alloc(); "fancygrep: the pattern is refused: {why}")?;
    if let Some(at) = refusal.place {
        push_excerpt(&mut text, pattern, at)?;
    }
    let _unwritten = eprintln!(rt; "{text}");
    Ok(2)
}

/// Searches files, and returns the status, or an error if there is no memory for the program itself.
fn search_all(
    rt: &HostRuntime,
    patterns: &[String],
    settings: &Settings<'_>,
    paths: &[&str],
) -> Result<u8, AllocError> {
    let alone = PatternOptions {
        extent: Extent::Part,
        ..settings.pattern
    };
    for pattern in patterns {
        if let Some(error) = fault_alone(rt, pattern.as_str(), alone) {
            return refuse(rt, pattern.as_str(), alone, error);
        }
    }
    let matcher = match matcher_of(rt.alloc(), patterns, settings.pattern) {
        Ok(matcher) => matcher,
        Err(error) => {
            let whole = alternation(rt.alloc(), patterns, settings.pattern.is_text)?;
            return refuse(rt, whole.as_str(), settings.pattern, error);
        }
    };
    let selects_none = settings.most == Some(0)
        || (patterns.is_empty() && !settings.choice.inverted);
    if selects_none && !matches!(settings.report, Report::NameWithout) {
        return Ok(1);
    }
    let by_lines = settings.is_line_buffered || rt.stdout().is_terminal();
    let mut run = Run {
        rt,
        matcher,
        out: Output::new(rt.alloc(), rt.stdout(), by_lines),
        ignores: Ignores::new(rt.alloc()),
        report: settings.report,
        is_silent: settings.is_silent,
        is_selected: false,
        has_failed: false,
    };
    let searched = run.search_paths(settings, paths);
    let status = run.end();
    searched?;
    Ok(status)
}

/// Searches files, and returns the status of the program: 0 if a line is selected, 1 if none is, and 2 if something failed,
/// which standard error reports.
///
/// A line matches if any of the patterns has a match in it. Under `-m 0` nothing is searched, as by grep, nor without a
/// pattern.
pub fn search(
    rt: &HostRuntime,
    patterns: &[String],
    settings: &Settings<'_>,
    paths: &[&str],
) -> u8 {
    match search_all(rt, patterns, settings, paths) {
        Ok(status) => status,
        Err(_) => {
            let _unwritten = eprintln!(rt; "fancygrep: out of memory");
            2
        }
    }
}
