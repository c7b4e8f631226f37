//! Globs, and the names that they match.

ghost use Rattle.std.specs.Prelude.{◌≡◌, ◌++◌, ◌≤◌, ◌<◌, ◌&&◌, ◌||◌, ◌∷◌, [], ◌==◌, not, if◌then◌else◌, false, true, Bool, ℕ, List, suc, IfOk, IfSome, chars, length, option_map, unwrap_or};
ghost use Rattle.fancy_grep.specs.Globs.{Folders, IsRow, after_negation, after_stars, any_in, begins_after, bracketed, escaped, first_of, glob_of, HasAlone, is_among, is_in, just, may_be_empty, matches, matches_first, member, range, ranges, set_of, starred, takes, token_of, tokens_of, unended};

use std::alloc::{AllocError, Global};

/// Characters: those in one of the ranges, or those in none.
#[derive(Drop)]
pub struct Set {
    ranges: Vec<(char, char)>,
    is_negated: bool,
    /// It is in a path, and has no `/`.
    is_path: bool,
}

/// What a part of a glob matches.
#[derive(Drop)]
pub enum Token {
    /// One character of the set.
    One(Set),
    /// Characters of the set, or none.
    Any(Set),
    /// Folders with the `/` after each, or none.
    Folders,
}

impl Set {
    fn is_among(&self, c: char) -> bool
        ensures { result ≡ is_among (set_of self.now) c }
    {
        let is_among = self.ranges.iter().any(|range| range.0 <= c && c <= range.1);
        self.is_negated != is_among
    }

    fn has(&self, c: char) -> bool
        ensures { result ≡ is_in (set_of self.now) c }
    {
        !(self.is_path && c == '/') && self.is_among(c)
    }

    /// That of one character.
    fn just(alloc: Global, c: char) -> Result<Set, AllocError>
        ensures { IfOk result (λ s. set_of s ≡ just c) }
    {
        let mut ranges = Vec::new(alloc);
        ranges.push((c, c))?;
        Ok(Set {
            ranges,
            is_negated: false,
            is_path: false,
        })
    }

    /// That of all characters, in a path but for `/`.
    fn any_in(alloc: Global, is_path: bool) -> Set
        ensures { set_of result ≡ any_in is_path }
    {
        Set {
            ranges: Vec::new(alloc),
            is_negated: true,
            is_path,
        }
    }

    /// That of a character which begins what does not end: in a path nothing matches it.
    fn unended(alloc: Global, is_path: bool, c: char) -> Result<Set, AllocError>
        ensures { IfOk result (λ s. set_of s ≡ unended is_path c) }
    {
        if !is_path {
            return Set::just(alloc, c);
        }
        Ok(Set {
            ranges: Vec::new(alloc),
            is_negated: false,
            is_path: false,
        })
    }
}

/// The members of a set, and whether it is one of other characters.
fn after_negation(text: &[char]) -> (&[char], bool)
    ensures members { (result.0.now, result.1) ≡ after_negation text.now }
    ensures shorter { length result.0.now ≤ length text.now }
{
    match text {
        [c, rest @ ..] if *c == '!' || *c == '^' => (rest, true),
        _ => (text, false),
    }
}

/// A member of a set, and what follows it: a backslash makes the next character an ordinary one.
fn member(text: &[char]) -> Option<(char, &[char])>
    ensures member { option_map (λ m. (m.0, m.1.now)) result ≡ member text.now }
    ensures shorter { IfSome result (λ m. length m.1.now < length text.now) }
{
    match text {
        ['\\', c, rest @ ..] => Some((*c, rest)),
        ['\\'] | [] => None,
        [c, rest @ ..] => Some((*c, rest)),
    }
}

/// Members of a set and what follows them: `a-z` is a range, and any other character one of its own.
fn range(text: &[char]) -> Option<((char, char), &[char])>
    ensures range { option_map (λ m. (m.0, m.1.now)) result ≡ range text.now }
    ensures shorter { IfSome result (λ m. length m.1.now < length text.now) }
{
    let (low, rest) = member(text)?;
    match rest {
        [dash, high, ..] if *dash == '-' && *high != ']' => {
            let (high, after) = member(&rest[1..])?;
            Some(((low, high), after))
        }
        _ => Some(((low, low), rest)),
    }
}

/// Whether a character ends a set.
fn ends_set(c: char, is_first: bool) -> bool
    ensures { result ≡ (c == 93 && not is_first) }
{
    c == ']' && !is_first
}

/// The ranges of a set and what follows its end, if it ends: at the first `]` that is not its first member.
fn ranges(alloc: Global, text: &[char]) -> Result<Option<(Vec<(char, char)>, &[char])>, AllocError>
    ensures ranges { IfOk result (λ r. option_map (λ s. (s.0.items, s.1.now)) r
        ≡ ranges (length text.now) true text.now) }
    ensures shorter { IfOk result (λ r. IfSome r (λ s. length s.1.now ≤ length text.now)) }
{
    let mut ranges = Vec::new(alloc);
    let mut left = text;
    let mut is_first = true;
    while let [c, after @ ..] = left {
        if ends_set(*c, is_first) {
            return Ok(Some((ranges, after)));
        }
        let Some((members, rest)) = range(left) else {
            return Ok(None);
        };
        ranges.push(members)?;
        left = rest;
        is_first = false;
    }
    Ok(None)
}

impl Token {
    /// Whether it matches this character, if it always matches one.
    fn has_alone(&self, c: char) -> Option<bool>
        ensures { IfSome result (HasAlone (token_of self.now) c) }
    {
        match self {
            Token::One(set) => Some(set.has(c)),
            _ => None,
        }
    }

    /// Whether it can match this character and then end, or go on.
    fn takes(&self, c: char, ends: bool, more: bool) -> bool
        ensures { result ≡ takes (token_of self.now) c ends more }
    {
        match self {
            Token::One(set) => set.has(c) && ends,
            Token::Any(set) => set.has(c) && (ends || more),
            Token::Folders => (c == '/' && ends) || more,
        }
    }

    /// Whether it can begin here: what follows it can, or it matches more first.
    fn begins(&self, ends: bool, more: bool) -> bool
        ensures { result ≡ (more || (may_be_empty (token_of self.now) && ends)) }
    {
        more || (!matches!(self, Token::One(_)) && ends)
    }

    /// Notes of each rest of a name whether it matches this token and what follows it, by whether it matches what follows.
    fn add_before(&self, name: &[char], row: &mut [bool])
        requires { length row.old ≡ suc (length name.now) }
        ensures length { length row.new ≡ length row.old }
        ensures row { (rest : List ℕ → Bool)
            → IsRow rest name.now row.old
            → IsRow (matches_first (token_of self.now) rest) name.now row.new }
    {
        let mut at = name.len();
        let mut ends = row[at];
        let mut more = false;
        row[at] = self.begins(ends, more);
        while at > 0 {
            at -= 1;
            more = self.takes(name[at], ends, more);
            ends = row[at];
            row[at] = self.begins(ends, more);
        }
    }
}

pub(crate) fn chars_of(alloc: Global, text: &str) -> Result<Vec<char>, AllocError>
    ensures { IfOk result (λ v. v.items ≡ chars text.now) }
{
    text.chars().collect(alloc)
}

/// What is left of tokens and a name without the tokens of one character at both ends, if these match theirs.
fn between<'t, 'n>(tokens: &'t [Token], name: &'n [char]) -> Option<(&'t [Token], &'n [char])>
    ensures { matches (tokens_of tokens.now) name.now
        ≡ unwrap_or (option_map (λ r. matches (tokens_of r.0.now) r.1.now) result) false }
{
    if let ([token, tokens @ ..], [c, name @ ..]) = (tokens, name) {
        match token.has_alone(*c) {
            Some(true) => return between(tokens, name),
            Some(false) => return None,
            None => {}
        }
    }
    if let ([tokens @ .., token], [name @ .., c]) = (tokens, name) {
        match token.has_alone(*c) {
            Some(true) => return between(tokens, name),
            Some(false) => return None,
            None => {}
        }
    }
    Some((tokens, name))
}

/// Whether the tokens match all of a name. It takes time for each pair of a token and a character.
pub fn matches(alloc: Global, tokens: &[Token], name: &[char]) -> Result<bool, AllocError>
    ensures { IfOk result (λ is. is ≡ matches (tokens_of tokens.now) name.now) }
{
    match between(tokens, name) {
        Some((tokens, name)) => matches_by_rows(alloc, tokens, name),
        None => Ok(false),
    }
}

/// The same, by rows.
fn matches_by_rows(alloc: Global, tokens: &[Token], name: &[char]) -> Result<bool, AllocError>
    ensures { IfOk result (λ is. is ≡ matches (tokens_of tokens.now) name.now) }
{
    let mut row = Vec::new(alloc);
    for c in name {
        row.push(false)?;
    }
    row.push(true)?;
    let mut left = tokens.len();
    while left > 0 {
        left -= 1;
        tokens[left].add_before(name, &mut row);
    }
    Ok(row[0])
}

/// What follows the first stars.
fn after_stars(text: &[char]) -> &[char]
    ensures after { result.now ≡ after_stars text.now }
    ensures shorter { length result.now ≤ length text.now }
{
    match text {
        ['*', rest @ ..] => after_stars(rest),
        _ => text,
    }
}

/// After a `*` where a name begins in a path: `**/` are folders, and `**` at the end is all that is below.
fn starred(alloc: Global, text: &[char]) -> (Token, &[char])
    ensures token { (token_of result.0, result.1.now) ≡ starred text.now }
    ensures shorter { length result.1.now ≤ length text.now }
{
    let is_double = text.first() == Some(&'*');
    match after_stars(text) {
        ['/', rest @ ..] if is_double => (Token::Folders, rest),
        [] if is_double => (Token::Any(Set::any_in(alloc, false)), &[]),
        _ => (Token::Any(Set::any_in(alloc, true)), text),
    }
}

/// The first token of a glob, by its first character, and what follows it.
fn first_of<'t>(
    alloc: Global,
    is_path: bool,
    begins: bool,
    c: char,
    text: &'t [char],
) -> Result<(Token, &'t [char]), AllocError>
    ensures first { IfOk result (λ r. (token_of r.0, r.1.now) ≡ first_of is_path begins c text.now) }
    ensures shorter { IfOk result (λ r. length r.1.now ≤ length text.now) }
{
    match c {
        '*' if is_path && begins => Ok(starred(alloc, text)),
        '*' => Ok((Token::Any(Set::any_in(alloc, is_path)), text)),
        '?' => Ok((Token::One(Set::any_in(alloc, is_path)), text)),
        '\\' => escaped(alloc, is_path, text),
        '[' => bracketed(alloc, is_path, text),
        c => Ok((Token::One(Set::just(alloc, c)?), text)),
    }
}

/// A backslash makes the next character an ordinary one.
fn escaped(alloc: Global, is_path: bool, text: &[char]) -> Result<(Token, &[char]), AllocError>
    ensures { IfOk result (λ r. (token_of r.0, r.1.now) ≡ escaped is_path text.now) }
{
    match text {
        [c, rest @ ..] => Ok((Token::One(Set::just(alloc, *c)?), rest)),
        [] => Ok((Token::One(Set::unended(alloc, is_path, '\\')?), text)),
    }
}

/// A set after `[`, if it ends.
fn bracketed(alloc: Global, is_path: bool, text: &[char]) -> Result<(Token, &[char]), AllocError>
    ensures set { IfOk result (λ r. (token_of r.0, r.1.now) ≡ bracketed is_path text.now) }
    ensures shorter { IfOk result (λ r. length r.1.now ≤ length text.now) }
{
    let (members, is_negated) = after_negation(text);
    match ranges(alloc, members)? {
        Some((ranges, rest)) => Ok((
            Token::One(Set {
                ranges,
                is_negated,
                is_path,
            }),
            rest,
        )),
        None => Ok((Token::One(Set::unended(alloc, is_path, '[')?), text)),
    }
}

/// The tokens before a glob, which may begin in any folder if it is for names.
fn tokens_before(alloc: Global, is_path: bool) -> Result<Vec<Token>, AllocError>
    ensures { IfOk result (λ v. tokens_of v.items
        ≡ if is_path then [] else Folders ∷ []) }
{
    let mut tokens = Vec::new(alloc);
    if !is_path {
        tokens.push(Token::Folders)?;
    }
    Ok(tokens)
}

/// Whether a name begins after a token, which begins with this character.
fn begins_after(c: char, token: &Token) -> bool
    ensures { result ≡ begins_after c (token_of token.now) }
{
    match token {
        Token::Folders => true,
        _ => c == '/',
    }
}

/// The tokens of a glob. In a path only `**` matches `/`, and a glob for names may begin in any folder.
pub fn glob_of(alloc: Global, is_path: bool, text: &[char]) -> Result<Vec<Token>, AllocError>
    ensures { IfOk result (λ v. tokens_of v.items ≡ glob_of is_path text.now) }
{
    let mut tokens = tokens_before(alloc, is_path)?;
    let mut left = text;
    let mut begins = true;
    while let [c, rest @ ..] = left {
        let (token, after) = first_of(alloc, is_path, begins, *c, rest)?;
        begins = begins_after(*c, &token);
        tokens.push(token)?;
        left = after;
    }
    Ok(tokens)
}
