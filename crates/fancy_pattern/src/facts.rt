//! What the tokens of a pattern say of groups, in one pass.

ghost use Rattle.std.specs.Prelude.{◌≡◌, ◌≤◌, ◌<◌, ◌+◌, ◌^◌, ◌||◌, true, false, map, is_some, if◌then◌else◌};
ghost use Rattle.std.specs.List.{list_any, count_by};
ghost use Rattle.fancy_pattern.specs.Faults.{asked_by};
ghost use Rattle.fancy_pattern.specs.Described.{by_number, names_number, asks_number, is_group, opens_group};
ghost use Rattle.fancy_pattern.specs.Surveyed.{names_group};
ghost use Rattle.fancy_pattern.specs.Spelling.{has_name, opens_named};
ghost use Rattle.fancy_tokens.specs.PatternViews.{token_of, placed_of, opening_of, target_of};

use fancy_tokens::tokens::{Opening, Placed, Target, Token};

/// What tokens say of groups.
#[derive(Clone, Copy)]
pub struct Facts {
    /// How many they open.
    pub groups: usize,
    /// One of them names a group by its number.
    pub by_number: bool,
    /// One of them is a reference, a condition or a call.
    pub names_group: bool,
    /// One of them opens a group with a name.
    pub has_names: bool,
}

fn nothing() -> Facts
    ensures groups { result.groups ≡ 0 }
    ensures by_number { result.by_number ≡ false }
    ensures names_group { result.names_group ≡ false }
    ensures has_names { result.has_names ≡ false }
{
    Facts {
        groups: 0,
        by_number: false,
        names_group: false,
        has_names: false,
    }
}

fn is_group(opening: Opening<'_>) -> bool
    ensures { result ≡ is_group (opening_of opening.entry) }
{
    match opening {
        Opening::Group { .. } => true,
        _ => false,
    }
}

fn is_by_number(target: Target<'_>) -> bool
    ensures { result ≡ by_number (target_of target.entry) }
{
    match target {
        Target::Name(_) => false,
        _ => true,
    }
}

fn asks_number(opening: Opening<'_>) -> bool
    ensures { result ≡ asks_number (opening_of opening.entry) }
{
    match opening {
        Opening::If(reference) => is_by_number(reference.target),
        _ => false,
    }
}

fn asks(opening: Opening<'_>) -> bool
    ensures { result ≡ is_some (asked_by (opening_of opening.entry)) }
{
    match opening {
        Opening::If(_) => true,
        _ => false,
    }
}

/// What an opening parenthesis says.
fn of_opening(opening: Opening<'_>) -> Facts
    ensures few { result.groups ≤ 1 }
    ensures groups { result.groups ≡ if is_group (opening_of opening.entry) then 1 else 0 }
    ensures by_number { result.by_number ≡ asks_number (opening_of opening.entry) }
    ensures names_group { result.names_group ≡ is_some (asked_by (opening_of opening.entry)) }
    ensures has_names { result.has_names ≡ has_name (opening_of opening.entry) }
{
    Facts {
        groups: if is_group(opening) { 1 } else { 0 },
        by_number: asks_number(opening),
        names_group: asks(opening),
        has_names: has_name(opening),
    }
}

fn has_name(opening: Opening<'_>) -> bool
    ensures { result ≡ has_name (opening_of opening.entry) }
{
    match opening {
        Opening::Group { name, .. } => name.is_some(),
        _ => false,
    }
}

fn either(a: bool, b: bool) -> bool
    ensures { result ≡ (a || b) }
{
    a || b
}

impl Facts {
    /// What either says.
    fn plus(self, found: Facts) -> Facts
        requires few { self.groups + found.groups < 2 ^ 64 }
        ensures groups { result.groups ≡ self.groups + found.groups }
        ensures by_number { result.by_number ≡ (found.by_number || self.by_number) }
        ensures names_group { result.names_group ≡ (found.names_group || self.names_group) }
        ensures has_names { result.has_names ≡ (found.has_names || self.has_names) }
    {
        Facts {
            groups: self.groups + found.groups,
            by_number: either(found.by_number, self.by_number),
            names_group: either(found.names_group, self.names_group),
            has_names: either(found.has_names, self.has_names),
        }
    }

    /// The same with what a further token says.
    #[inline(always)]
    fn with_token(self, token: &Token<'_>) -> Facts
        requires room { self.groups + 1 < 2 ^ 64 }
        ensures few { result.groups ≤ self.groups + 1 }
        ensures groups { result.groups
            ≡ self.groups + (if opens_group (token_of token.now) then 1 else 0) }
        ensures by_number { result.by_number
            ≡ (names_number (token_of token.now) || self.by_number) }
        ensures names_group { result.names_group
            ≡ (names_group (token_of token.now) || self.names_group) }
        ensures has_names { result.has_names
            ≡ (opens_named (token_of token.now) || self.has_names) }
    {
        match token {
            Token::Group(_) => Facts {
                groups: self.groups + 1,
                ..self
            },
            Token::Numbered { .. } => Facts {
                by_number: true,
                names_group: true,
                ..self
            },
            Token::Refer(placed) => Facts {
                by_number: either(is_by_number(placed.reference.target), self.by_number),
                names_group: true,
                ..self
            },
            Token::Open(placed) => self.plus(of_opening(placed.opening)),
            _ => self,
        }
    }

    /// What these tokens say.
    pub(crate) fn of(tokens: &[Placed<'_>]) -> Facts
        ensures groups { result.groups
            ≡ count_by (λ p. opens_group p.token) (map placed_of tokens.now) }
        ensures by_number { result.by_number
            ≡ list_any (λ p. names_number p.token) (map placed_of tokens.now) }
        ensures names_group { result.names_group
            ≡ list_any (λ p. names_group p.token) (map placed_of tokens.now) }
        ensures has_names { result.has_names
            ≡ list_any (λ p. opens_named p.token) (map placed_of tokens.now) }
    {
        let mut facts = nothing();
        for placed in tokens {
            facts = facts.with_token(&placed.token);
        }
        facts
    }
}
