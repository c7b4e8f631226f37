//! What files such as `.gitignore` say of the files and folders below them.

ghost use Rattle.std.specs.Prelude.{◌≡◌, IfOk};
ghost use Rattle.fancy_grep.specs.Ignores.{by_ignores, said, says};

use crate::globs::chars_of;
use crate::lines::Lines;
use crate::rules::{Entry, Rule, decision};
use std::alloc::{AllocError, Global};
use std::fs;

/// The rules of a file, for what is below its folder.
#[derive(Drop)]
pub struct Source {
    /// The path of the folder, with a `/` at its end.
    folder: Vec<char>,
    rules: Vec<Rule>,
    /// The sources before it say nothing of what is below its folder.
    is_top: bool,
}

impl Source {
    /// What it says of an entry with this whole path, after what was said.
    fn says(
        &self,
        alloc: Global,
        said: Option<bool>,
        entry: Entry<'_>,
    ) -> Result<Option<bool>, AllocError>
        ensures { IfOk result (λ d. d
            ≡ says entry.entry.path.now entry.entry.name.now entry.entry.is_folder said self.now) }
    {
        let Some(path) = entry.path.strip_prefix(&self.folder) else {
            return Ok(said);
        };
        let said = if self.is_top { None } else { said };
        Ok(decision(alloc, &self.rules, Entry { path, ..entry })?.or(said))
    }
}

/// What the last source says that says something, of those from the last top on.
fn said(alloc: Global, sources: &[Source], entry: Entry<'_>) -> Result<Option<bool>, AllocError>
    ensures { IfOk result (λ d. d
        ≡ said entry.entry.path.now entry.entry.name.now entry.entry.is_folder sources.now) }
{
    let mut said = None;
    for source in sources {
        said = source.says(alloc, said, entry)?;
    }
    Ok(said)
}

/// What a line of an ignore file reads as, without the spaces at its end, but for one after a backslash.
fn trimmed(line: &[char]) -> &[char] {
    let mut kept = 0;
    let mut is_escaped = false;
    for (at, c) in line.iter().enumerate() {
        if *c != ' ' || is_escaped {
            kept = at.saturating_add(1);
        }
        is_escaped = *c == '\\' && !is_escaped;
    }
    line.get(..kept).unwrap_or(line)
}

/// The rules of an ignore file, one on a line. A line that begins with `#` is none, and a carriage return at its end is no part
/// of it.
fn rules_in(alloc: Global, text: &str) -> Result<Vec<Rule>, AllocError> {
    let mut rules = Vec::new(alloc);
    for line in Lines::new(text.strip_prefix('\u{feff}').unwrap_or(text)) {
        if !line.text.starts_with('#') {
            let line = chars_of(alloc, line.text.strip_suffix('\r').unwrap_or(line.text))?;
            rules.push(Rule::of_path(alloc, trimmed(&line), false)?)?;
        }
    }
    Ok(rules)
}

/// What ignore files say, of the folder that is walked and of those above it.
#[derive(Drop)]
pub struct Ignores {
    /// Those of git: from the top of a repository down `.git/info/exclude` and each `.gitignore`.
    git: Vec<Source>,
    /// Each `.ignore`.
    own: Vec<Source>,
}

impl Ignores {
    pub fn new(alloc: Global) -> Ignores {
        Ignores {
            git: Vec::new(alloc),
            own: Vec::new(alloc),
        }
    }

    /// What they say of an entry with this whole path. A `.ignore` comes before those of git, and a lower one before a higher.
    pub fn decision(&self, alloc: Global, entry: Entry<'_>) -> Result<Option<bool>, AllocError>
        ensures { IfOk result (λ d. d
            ≡ by_ignores entry.entry.path.now entry.entry.name.now entry.entry.is_folder self.now) }
    {
        match said(alloc, &self.own, entry)? {
            Some(is_included) => Ok(Some(is_included)),
            None => said(alloc, &self.git, entry),
        }
    }

    /// Goes on to a folder, by its whole path with a `/` at its end: reads its files, and forgets those of folders that it is
    /// not below.
    pub fn enter(&mut self, rt: &HostRuntime, path: &str) -> Result<(), AllocError> {
        let folder = chars_of(rt.alloc(), path)?;
        self.git.retain(|source| folder.starts_with(&source.folder));
        self.own.retain(|source| folder.starts_with(&source.folder));
        if fs::exists(rt, format!(in rt.alloc(); "{path}.git")?).unwrap_or(false) {
            add_source(rt, &mut self.git, path, ".git/info/exclude", true)?;
        }
        if !self.git.is_empty() {
            add_source(rt, &mut self.git, path, ".gitignore", false)?;
        }
        add_source(rt, &mut self.own, path, ".ignore", false)
    }

    /// Goes on to each folder above this one, the highest first.
    pub fn enter_above(&mut self, rt: &HostRuntime, path: &str) -> Result<(), AllocError> {
        let inner = path.strip_suffix('/').unwrap_or(path);
        for (at, _) in inner.match_indices('/') {
            self.enter(rt, path.get(..at.saturating_add(1)).unwrap_or(path))?;
        }
        Ok(())
    }
}

/// Adds the rules of a file in a folder, if it can be read. A top is there without it.
fn add_source(
    rt: &HostRuntime,
    sources: &mut Vec<Source>,
    path: &str,
    name: &str,
    is_top: bool,
) -> Result<(), AllocError> {
    let alloc = rt.alloc();
    let bytes = match fs::read(rt, format!(in alloc; "{path}{name}")?) {
        Ok(bytes) => bytes,
        Err(_) if is_top => Vec::new(alloc),
        Err(_) => return Ok(()),
    };
    let text = String::from_utf8_lossy(alloc, &bytes)?;
    sources.push(Source {
        folder: chars_of(alloc, path)?,
        rules: rules_in(alloc, text.as_str())?,
        is_top,
    })?;
    Ok(())
}
