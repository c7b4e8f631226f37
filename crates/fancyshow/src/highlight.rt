//! A text highlighted by the rules of a language, with warnings of rules that are left out.

use crate::edited::push_asked_for;
use crate::html::{FOOT, HEAD, push_span};
use crate::outcome::{Answer, Trouble, Written, warned};
use crate::request::{given_text, or_input, read_file};
use crate::styles::{Style, style_at, styles_of};
use crate::tokens::push_tokens;
use clap::ArgMatches;
use fancy_highlight::error::GrammarError;
use fancy_highlight::highlighter::Highlighter;
use fancy_highlight::left_out::LeftOut;
use fancy_highlight::scopes::Scopes;
use fancy_highlight::tokens::Highlights;
use std::alloc::{AllocError, Global};
use std::collections::BTreeSet;
use std::fs;

/// How the tokens of a text are written.
#[derive(Clone, Copy)]
enum Form {
    Page,
    Tokens,
    Coloured,
    Plain,
}

fn form_of(matches: &ArgMatches<'_>, colours: bool) -> Form {
    if matches.get_flag("html") {
        Form::Page
    } else if matches.get_flag("tokens") {
        Form::Tokens
    } else if colours || matches.get_flag("ansi") {
        Form::Coloured
    } else {
        Form::Plain
    }
}

/// The highlighter of the rules in a file.
fn highlighter_of(rt: &HostRuntime, matches: &ArgMatches<'_>) -> Result<Highlighter, Trouble> {
    let path = matches.get_str("rules").unwrap_or("");
    let rules = read_file(rt, path)?;
    match Highlighter::new(rt.alloc(), rules.as_str()) {
        Ok(highlighter) => Ok(highlighter),
        Err(error) => Err(refused_rules(rt.alloc(), path, &error)?),
    }
}

/// The trouble that an error of the rules in this file is.
fn refused_rules(alloc: Global, path: &str, error: &GrammarError) -> Result<Trouble, AllocError> {
    match error {
        GrammarError::Memory => Err(AllocError),
        _ => Ok(Trouble::Refusal(format!(in alloc; "{path}: {error}")?)),
    }
}

/// Writes each token in the style of its scope.
fn push_styled(
    out: &mut String,
    form: Form,
    styles: &[Style],
    highlights: &Highlights,
    text: &str,
) -> Written {
    for token in &highlights.tokens {
        let part = text.get(token.start..token.end).unwrap_or("");
        let Style { class, code } = style_at(styles, token.scope);
        match form {
            Form::Page => push_span(out, part, class)?,
            Form::Coloured if !code.is_empty() => {
                write!(out, "\u{1b}[{code}m{part}\u{1b}[0m")?;
            }
            _ => out.push_str(part)?,
        }
    }
    Ok(())
}

/// Writes the text in the form.
fn push_shown(
    out: &mut String,
    form: Form,
    scopes: &Scopes,
    highlights: &Highlights,
    text: &str,
) -> Result<(), Trouble> {
    let (head, foot) = match form {
        Form::Page => (HEAD, FOOT),
        Form::Tokens => return push_tokens(out, scopes, highlights, text),
        _ => ("", ""),
    };
    let styles = styles_of(*out.allocator(), scopes)?;
    out.push_str(head)?;
    push_styled(out, form, &styles, highlights, text)?;
    out.push_str(foot)?;
    Ok(())
}

/// Reads the grammar of this name from the folder, if it is there.
fn read_grammar(
    rt: &HostRuntime,
    folder: &str,
    name: &str,
    highlighter: &mut Highlighter,
) -> Result<bool, Trouble> {
    let path = format!(in rt.alloc(); "{folder}/{name}.json")?;
    let Ok(rules) = fs::read_to_string(rt, path.as_str()) else {
        return Ok(false);
    };
    match highlighter.add_grammar(name, rules.as_str()) {
        Ok(()) => Ok(true),
        Err(error) => Err(refused_rules(rt.alloc(), path.as_str(), &error)?),
    }
}

/// The names of the grammars that are wanted, but for those that were asked for, which these now belong to.
fn newly_wanted(
    alloc: Global,
    asked: &mut BTreeSet<String>,
    wanted: &[String],
) -> Result<Vec<String>, AllocError> {
    let mut names = Vec::new(alloc);
    for include in wanted {
        let include = include.as_str();
        let (name, _) = include.split_once('#').unwrap_or((include, ""));
        if asked.insert(String::from_str(alloc, name)?)? {
            names.push(String::from_str(alloc, name)?)?;
        }
    }
    Ok(names)
}

/// Highlights the text by the rules, and by those that they include of other grammars in the folder: these are read as they
/// are wanted, and then the text is highlighted anew.
fn highlights_of(
    rt: &HostRuntime,
    folder: Option<&str>,
    highlighter: &mut Highlighter,
    text: &str,
) -> Result<Highlights, Trouble> {
    let mut highlights = highlighter.highlight(text)?;
    let Some(folder) = folder else {
        return Ok(highlights);
    };
    let mut asked = BTreeSet::new(rt.alloc());
    for _ in 0..usize::MAX {
        let mut is_read = false;
        for name in newly_wanted(rt.alloc(), &mut asked, highlighter.wanted())? {
            let is_there = read_grammar(rt, folder, name.as_str(), highlighter)?;
            is_read = is_read || is_there;
        }
        if !is_read {
            break;
        }
        highlights = highlighter.highlight(text)?;
    }
    Ok(highlights)
}

/// What separates a warning from those before it.
fn separator(out: &str) -> &'static str {
    if out.is_empty() { "" } else { "\nwarning: " }
}

/// Writes that a rule of this file is left out, from which byte on, and why.
fn push_left_out(out: &mut String, file: &str, rule: &LeftOut) -> Written {
    let separator = separator(out.as_str());
    let (path, name, at, error) = (&rule.path, &rule.name, rule.at, &rule.error);
    write!(out, "{separator}{file}: {path}")?;
    if !name.is_empty() {
        write!(out, " ({name})")?;
    }
    write!(out, ": {error}; the rule is left out from byte {at} on")
}

/// Writes that each of these includes names nothing.
fn push_missing(out: &mut String, file: &str, includes: &[String]) -> Written {
    for include in includes {
        let separator = separator(out.as_str());
        write!(
            out,
            "{separator}{file}: there is no {include}; what includes it does without"
        )?;
    }
    Ok(())
}

/// What is to be warned of: includes that name nothing, and rules that are left out.
fn warning(
    alloc: Global,
    path: &str,
    highlighter: &Highlighter,
    left_out: &[LeftOut],
) -> Result<String, AllocError> {
    let mut warning = String::new(alloc);
    push_missing(&mut warning, path, highlighter.missing())?;
    push_missing(&mut warning, path, highlighter.wanted())?;
    for rule in left_out {
        push_left_out(&mut warning, path, rule)?;
    }
    Ok(warning)
}

/// Writes the text, highlighted by these rules, or how few lines an editor asks for anew. Returns what is to be warned of.
fn push_highlighted(
    rt: &HostRuntime,
    matches: &ArgMatches<'_>,
    out: &mut String,
    form: Form,
    highlighter: &mut Highlighter,
    text: &str,
) -> Answer {
    let highlights = highlights_of(rt, matches.get_str("grammars"), highlighter, text)?;
    match matches.get_str("edited") {
        None => push_shown(out, form, highlighter.scopes(), &highlights, text)?,
        Some(path) => push_asked_for(out, highlighter, text, read_file(rt, path)?.as_str())?,
    }
    let path = matches.get_str("rules").unwrap_or("");
    Ok(warning(rt.alloc(), path, highlighter, &highlights.left_out)?)
}

/// The text, highlighted by the rules that the words name.
pub fn highlight(rt: &HostRuntime, matches: &ArgMatches<'_>, colours: bool) -> Answer {
    let form = form_of(matches, colours);
    let mut highlighter = highlighter_of(rt, matches)?;
    let text = or_input(rt, given_text(rt, matches, matches.get_str("TEXT"))?)?;
    let mut out = String::new(rt.alloc());
    let warning = push_highlighted(rt, matches, &mut out, form, &mut highlighter, text.as_str())?;
    warned(out, warning)
}
