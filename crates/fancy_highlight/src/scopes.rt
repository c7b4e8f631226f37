//! Scopes: names, each within the names before it.

ghost use Rattle.std.specs.Prelude.{◌≡◌, ◌∷◌, [], IfOk, MatchOption, Some, length, option_map, slice_get, string_bytes};
ghost use Rattle.fancy_highlight.specs.Scopes.{names_left, names_within, scopes_in};

use crate::names::{Name, expanded};
use fancy_matches::found::Captures;
use std::alloc::{AllocError, Global};
use std::collections::BTreeMap;

/// A name within another scope.
#[derive(Clone, Copy, Debug, PartialEq, Eq, PartialOrd, Ord)]
pub struct Scope {
    /// The scope that it is within, which has a lower number.
    pub outer: Option<usize>,
    /// The number of its name.
    pub name: usize,
}

/// Scopes, each a name within another scope. Equal scopes have equal numbers. The first is the grammar's own.
#[derive(Drop)]
pub struct Scopes {
    alloc: Global,
    names: Vec<String>,
    name_numbers: BTreeMap<String, usize>,
    scopes: Vec<Scope>,
    numbers: BTreeMap<Scope, usize>,
}

impl Scopes {
    pub(crate) fn new(alloc: Global) -> Scopes {
        Scopes {
            alloc,
            names: Vec::new(alloc),
            name_numbers: BTreeMap::new(alloc),
            scopes: Vec::new(alloc),
            numbers: BTreeMap::new(alloc),
        }
    }

    /// The number of a name.
    pub(crate) fn name_number(&mut self, name: &str) -> Result<usize, AllocError> {
        if let Some(number) = self.name_numbers.get(name) {
            return Ok(*number);
        }
        let number = self.names.len();
        self.names.push(String::from_str(self.alloc, name)?)?;
        self.name_numbers
            .insert(String::from_str(self.alloc, name)?, number)?;
        Ok(number)
    }

    /// The name with this number.
    pub fn name(&self, number: usize) -> Option<&str>
        ensures { option_map (λ name. name.now) result
            ≡ option_map string_bytes (slice_get self.now.names.items number) }
    {
        match self.names.get(number) {
            Some(name) => Some(name.as_str()),
            None => None,
        }
    }

    /// The scope of a name within another one.
    pub(crate) fn enter_one(
        &mut self,
        outer: Option<usize>,
        name: usize,
    ) -> Result<usize, AllocError>
        ensures { IfOk result (λ scope. slice_get (scopes_in self.new) scope
            ≡ Some (record { outer = outer; name = name })) }
    {
        let scope = Scope { outer, name };
        if let Some(number) = self.numbers.get(&scope) {
            if self.scopes.get(*number).copied() == Some(scope) {
                return Ok(*number);
            }
        }
        let number = self.scopes.len();
        self.numbers.insert(scope, number)?;
        self.scopes.push(scope)?;
        Ok(number)
    }

    /// The scope of a rule's name within another one, for a match with these groups.
    pub(crate) fn enter(
        &mut self,
        outer: usize,
        name: &Name,
        captures: &Captures<'_>,
    ) -> Result<usize, AllocError> {
        let mut scope = outer;
        match name {
            Name::Fixed(numbers) => {
                for number in numbers {
                    scope = self.enter_one(Some(scope), *number)?;
                }
            }
            Name::Made(text) => {
                let text = expanded(self.alloc, text.as_str(), captures)?;
                for name in text.split_whitespace() {
                    let number = self.name_number(name)?;
                    scope = self.enter_one(Some(scope), number)?;
                }
            }
        }
        Ok(scope)
    }

    /// Adds the names of a scope, the outermost first.
    pub(crate) fn push_names<'s>(
        &'s self,
        names: &mut Vec<&'s str>,
        scope: usize,
    ) -> Result<(), AllocError> {
        let mut numbers = self.names(scope);
        for _ in 0..self.scopes.len() {
            let Some(number) = numbers.next_out() else {
                break;
            };
            names.push(self.name(number).unwrap_or(""))?;
        }
        names.reverse();
        Ok(())
    }

    /// All scopes, by their numbers.
    pub fn as_slice(&self) -> &[Scope]
        ensures { result.now ≡ scopes_in self.now }
    {
        &self.scopes
    }

    /// The numbers of a scope's names, the innermost first.
    pub fn names(&self, scope: usize) -> Names<'_>
        ensures { names_left result
            ≡ names_within self.now.scopes.items (length self.now.scopes.items) (Some scope) }
    {
        Names {
            scopes: &self.scopes,
            next: Some(scope),
            left: self.scopes.len(),
        }
    }
}

/// The numbers of a scope's names, the innermost first.
#[derive(Drop)]
pub struct Names<'s> {
    scopes: &'s [Scope],
    next: Option<usize>,
    /// How many names there are at most.
    left: usize,
}

impl Names<'_> {
    /// The next name further out.
    pub fn next_out(&mut self) -> Option<usize>
        ensures { MatchOption
            result
            (names_left self.old ≡ [])
            (λ name. names_left self.old ≡ name ∷ names_left self.new) }
    {
        if self.left == 0 {
            return None;
        }
        let scope = self.scopes.get(self.next?)?;
        self.next = scope.outer;
        self.left -= 1;
        Some(scope.name)
    }
}
