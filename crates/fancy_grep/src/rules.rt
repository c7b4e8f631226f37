//! Which files are searched, by rules.

ghost use Rattle.std.specs.Prelude.{◌≡◌, false, true, IfOk, chars, is_none, unwrap_or};
ghost use Rattle.std.specs.List.{list_any};
ghost use Rattle.fancy_grep.specs.Globs.{glob_of, tokens_of};
ghost use Rattle.fancy_grep.specs.Rules.{IsPathRule, after_slash, applies, before_slash, choice, decision, includes, file_decision, is_chosen, unsigned};

use crate::globs::{Token, chars_of, glob_of, matches};
use std::alloc::{AllocError, Global};

/// A file or folder.
#[derive(Clone, Copy)]
pub struct Entry<'e> {
    pub path: &'e [char],
    /// The last part of its path.
    pub name: &'e [char],
    pub is_folder: bool,
}

/// Whether files and folders are searched whose name or path a glob matches.
#[derive(Drop)]
pub struct Rule {
    glob: Vec<Token>,
    is_included: bool,
    /// It is for folders alone.
    is_for_folders: bool,
    /// Its glob matches names, and not paths.
    is_for_names: bool,
}

impl Rule {
    /// A rule on names, or on paths if they are given as names.
    pub fn of_name(alloc: Global, glob: &str, is_included: bool) -> Result<Rule, AllocError>
        ensures glob { IfOk result (λ r. tokens_of r.glob.items
            ≡ glob_of false (chars glob.now)) }
        ensures included { IfOk result (λ r. r.is_included ≡ is_included) }
    {
        let glob = chars_of(alloc, glob)?;
        Ok(Rule {
            glob: glob_of(alloc, false, &glob)?,
            is_included,
            is_for_folders: false,
            is_for_names: true,
        })
    }

    /// A rule on paths. After `!` it says the contrary, and before a last `/` it is for folders. A glob with another `/`
    /// begins where the paths do, and one without it is for names.
    pub fn of_path(alloc: Global, text: &[char], is_included: bool) -> Result<Rule, AllocError>
        ensures { IfOk result (IsPathRule is_included text.now) }
    {
        let (text, is_contrary) = unsigned(text);
        let (text, is_for_folders) = before_slash(text);
        Ok(Rule {
            glob: glob_of(alloc, true, after_slash(text))?,
            is_included: is_included != is_contrary,
            is_for_folders,
            is_for_names: !text.contains(&'/'),
        })
    }

    fn applies(&self, alloc: Global, entry: Entry<'_>) -> Result<bool, AllocError>
        ensures { IfOk result (λ is. is
            ≡ applies entry.entry.path.now entry.entry.name.now entry.entry.is_folder self.now) }
    {
        if self.is_for_folders && !entry.is_folder {
            return Ok(false);
        }
        if self.is_for_names {
            matches(alloc, &self.glob, entry.name)
        } else {
            matches(alloc, &self.glob, entry.path)
        }
    }
}

/// A text after `!`, and whether this is there.
fn unsigned(text: &[char]) -> (&[char], bool)
    ensures { (result.0.now, result.1) ≡ unsigned text.now }
{
    match text {
        ['!', rest @ ..] => (rest, true),
        _ => (text, false),
    }
}

/// A text before a `/` at its end, and whether this is there.
fn before_slash(text: &[char]) -> (&[char], bool)
    ensures { (result.0.now, result.1) ≡ before_slash text.now }
{
    if text.last() == Some(&'/') {
        (&text[..text.len() - 1], true)
    } else {
        (text, false)
    }
}

/// A text without a `/` at its beginning.
fn after_slash(text: &[char]) -> &[char]
    ensures { result.now ≡ after_slash text.now }
{
    match text {
        ['/', rest @ ..] => rest,
        _ => text,
    }
}

/// What the last rule that applies says, if one does.
pub(crate) fn decision(
    alloc: Global,
    rules: &[Rule],
    entry: Entry<'_>,
) -> Result<Option<bool>, AllocError>
    ensures { IfOk result (λ d. d
        ≡ decision entry.entry.path.now entry.entry.name.now entry.entry.is_folder rules.now) }
{
    let mut decision = None;
    for rule in rules {
        if rule.applies(alloc, entry)? {
            decision = Some(rule.is_included);
        }
    }
    Ok(decision)
}

fn includes_some(rules: &[Rule]) -> bool
    ensures { result ≡ list_any includes rules.now }
{
    rules.iter().any(|rule| rule.is_included)
}

/// What rules say, if they say something. A file that no rule names is not searched if a rule includes others.
fn choice(alloc: Global, rules: &[Rule], entry: Entry<'_>) -> Result<Option<bool>, AllocError>
    ensures { IfOk result (λ is. is
        ≡ choice entry.entry.path.now entry.entry.name.now entry.entry.is_folder rules.now) }
{
    match decision(alloc, rules, entry)? {
        Some(is_included) => Ok(Some(is_included)),
        None if !entry.is_folder && includes_some(rules) => Ok(Some(false)),
        None => Ok(None),
    }
}

/// Whether an entry of a folder is searched, by what rules on paths, ignore files and types say: the first decides, and else
/// none may leave it out. If none says anything, it is unless it is hidden.
fn is_chosen(
    by_path: Option<bool>,
    by_ignores: Option<bool>,
    by_type: Option<bool>,
    is_hidden: bool,
) -> bool
    ensures { result ≡ is_chosen by_path by_ignores by_type is_hidden }
{
    if let Some(is_included) = by_path {
        return is_included;
    }
    match by_ignores {
        Some(is_included) => is_included && by_type.unwrap_or(true),
        None => by_type.unwrap_or(!is_hidden),
    }
}

/// The rules for files and folders.
#[derive(Clone, Copy)]
pub struct Rules<'a> {
    /// On the names of files, as GNU grep has them.
    pub files: &'a [Rule],
    /// On the names of folders.
    pub folders: &'a [Rule],
    /// On the paths of both, as ripgrep has them.
    pub paths: &'a [Rule],
    /// On the names of files, by their types.
    pub types: &'a [Rule],
    /// Hidden files and folders are searched.
    pub has_hidden: bool,
    /// What ignore files say is passed over.
    pub has_ignored: bool,
}

impl<'a> Rules<'a> {
    /// Whether a file is searched, by its name. If no rule applies, it is, unless the first rule includes files.
    pub fn has_file(self, alloc: Global, name: &[char]) -> Result<bool, AllocError>
        ensures { IfOk result (λ is. is ≡ file_decision name.now self.entry.files.now) }
    {
        let entry = Entry {
            path: name,
            name,
            is_folder: false,
        };
        match decision(alloc, self.files, entry)? {
            Some(is_included) => Ok(is_included),
            None => Ok(self.files.first().map_or(true, |rule| !rule.is_included)),
        }
    }

    /// Whether a folder is searched, by its name.
    pub fn has_folder(self, alloc: Global, name: &[char]) -> Result<bool, AllocError>
        ensures { IfOk result (λ is. is
            ≡ unwrap_or (decision name.now name.now true self.entry.folders.now) true) }
    {
        let entry = Entry {
            path: name,
            name,
            is_folder: true,
        };
        Ok(decision(alloc, self.folders, entry)?.unwrap_or(true))
    }

    /// What the types say of an entry: nothing of a folder.
    fn by_type(self, alloc: Global, entry: Entry<'_>) -> Result<Option<bool>, AllocError> {
        if entry.is_folder {
            Ok(None)
        } else {
            choice(alloc, self.types, entry)
        }
    }

    /// Whether an entry of a folder is searched, by what ignore files say of it too.
    pub fn has_entry(
        self,
        alloc: Global,
        entry: Entry<'_>,
        by_ignores: Option<bool>,
    ) -> Result<bool, AllocError> {
        let by_path = choice(alloc, self.paths, entry)?;
        let by_type = self.by_type(alloc, entry)?;
        let is_hidden = !self.has_hidden && entry.name.first() == Some(&'.');
        if !is_chosen(by_path, by_ignores, by_type, is_hidden) {
            return Ok(false);
        }
        if entry.is_folder {
            self.has_folder(alloc, entry.name)
        } else {
            self.has_file(alloc, entry.name)
        }
    }
}
