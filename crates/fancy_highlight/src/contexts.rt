//! Which patterns are tried in a region: what the rules in its rule stand for.

use crate::frames::Tried;
use crate::rules::{Kind, Library, Rule};
use crate::scopes::Scopes;
use crate::selectors::selects;
use std::alloc::{AllocError, Global};
use std::collections::BTreeMap;

/// The patterns that are tried somewhere: those of injections before all others, those of the rules, and those of
/// injections after all others.
#[derive(Drop)]
pub(crate) struct Context {
    pub(crate) patterns: Vec<Tried>,
    /// The place of the first pattern of the rules.
    pub(crate) first: usize,
    /// The place past the last pattern of the rules.
    pub(crate) last: usize,
}

/// The patterns that are tried in the regions of each rule.
#[derive(Drop)]
pub(crate) struct Contexts {
    alloc: Global,
    /// By the number of the rule, and if there are injections, by the scope.
    contexts: BTreeMap<(usize, usize), Context>,
    /// The includes of other grammars that name nothing that is there, each once.
    pub(crate) wanted: Vec<String>,
}

/// Adds the numbers so that the first comes off last.
fn push_reversed(todo: &mut Vec<usize>, numbers: &[usize]) -> Result<(), AllocError> {
    for number in numbers.iter().rev() {
        todo.push(*number)?;
    }
    Ok(())
}

/// A bound on how many rules a walk visits: each list is gone through once.
fn most_steps(library: &Library) -> usize {
    let mut count = 1usize;
    for rule in &library.rules {
        count = count.saturating_add(rule.patterns.len()).saturating_add(1);
    }
    count
}

impl Contexts {
    pub(crate) fn new(alloc: Global) -> Contexts {
        Contexts {
            alloc,
            contexts: BTreeMap::new(alloc),
            wanted: Vec::new(alloc),
        }
    }

    /// Forgets all patterns, since another grammar was read.
    pub(crate) fn clear(&mut self) {
        self.contexts.clear();
        self.wanted.clear();
    }

    /// Notes that an include names nothing that is there.
    fn want(&mut self, scope: &str, name: &str) -> Result<(), AllocError> {
        let include = if name.is_empty() {
            String::from_str(self.alloc, scope)?
        } else {
            format!(in self.alloc; "{scope}#{name}")?
        };
        for wanted in &self.wanted {
            if wanted.as_str() == include.as_str() {
                return Ok(());
            }
        }
        self.wanted.push(include)?;
        Ok(())
    }

    /// The number of the rule that an include of another grammar stands for, if it is there.
    fn foreign(
        &mut self,
        library: &Library,
        scope: &str,
        name: &str,
    ) -> Result<Option<usize>, AllocError> {
        let found = match library.grammar(scope) {
            None => None,
            Some(grammar) if name.is_empty() => Some(grammar.root),
            Some(grammar) => grammar.repository.get(name).copied(),
        };
        if found.is_none() {
            self.want(scope, name)?;
        }
        Ok(found)
    }

    /// Notes what the rule stands for as the next to be gone through, or its pattern.
    fn visit(
        &mut self,
        library: &Library,
        list: &mut Vec<Tried>,
        todo: &mut Vec<usize>,
        number: usize,
        rule: &Rule,
    ) -> Result<(), AllocError> {
        match &rule.kind {
            Kind::List => push_reversed(todo, &rule.patterns)?,
            Kind::Foreign { scope, name } => {
                if let Some(found) = self.foreign(library, scope.as_str(), name.as_str())? {
                    todo.push(found)?;
                }
            }
            Kind::Match { .. } | Kind::Region(_) => {
                if let Some(pattern) = rule.pattern() {
                    list.push(Tried {
                        rule: number,
                        pattern,
                        is_end: false,
                    })?;
                }
            }
        }
        Ok(())
    }

    /// Adds what the rules in this rule stand for: each rule once, where it stands first.
    fn push_patterns(
        &mut self,
        library: &Library,
        list: &mut Vec<Tried>,
        rule: usize,
    ) -> Result<(), AllocError> {
        let Some(rule) = library.rules.get(rule) else {
            return Ok(());
        };
        let mut seen = vec![in self.alloc; false; library.rules.len()]?;
        let mut todo = Vec::new(self.alloc);
        push_reversed(&mut todo, &rule.patterns)?;
        for _ in 0..most_steps(library).saturating_add(rule.patterns.len()) {
            let Some(number) = todo.pop() else {
                break;
            };
            let (Some(is_seen), Some(rule)) = (seen.get_mut(number), library.rules.get(number))
            else {
                continue;
            };
            if *is_seen {
                continue;
            }
            *is_seen = true;
            self.visit(library, list, &mut todo, number, rule)?;
        }
        Ok(())
    }

    /// Adds the patterns of the injections for a scope of these names: those before all others, or those after.
    fn push_injected(
        &mut self,
        library: &Library,
        list: &mut Vec<Tried>,
        names: &[&str],
        is_before: bool,
    ) -> Result<(), AllocError> {
        for injection in &library.injections {
            let selector = injection.selector.as_str();
            if injection.is_before == is_before && selects(self.alloc, selector, names)? {
                self.push_patterns(library, list, injection.rule)?;
            }
        }
        Ok(())
    }

    /// What is tried in a scope in a rule's regions.
    fn context(
        &mut self,
        library: &Library,
        scopes: &Scopes,
        rule: usize,
        scope: usize,
    ) -> Result<Context, AllocError> {
        let mut names = Vec::new(self.alloc);
        if !library.injections.is_empty() {
            scopes.push_names(&mut names, scope)?;
        }
        let mut patterns = Vec::new(self.alloc);
        self.push_injected(library, &mut patterns, &names, true)?;
        let first = patterns.len();
        self.push_patterns(library, &mut patterns, rule)?;
        let last = patterns.len();
        self.push_injected(library, &mut patterns, &names, false)?;
        Ok(Context {
            patterns,
            first,
            last,
        })
    }

    /// What is tried in a scope in a rule's regions, once it was asked for; it is asked for here if it was not.
    pub(crate) fn of(
        &mut self,
        library: &Library,
        scopes: &Scopes,
        rule: usize,
        scope: usize,
    ) -> Result<Option<&Context>, AllocError> {
        let scope = if library.injections.is_empty() {
            0
        } else {
            scope
        };
        let key = (rule, scope);
        if self.contexts.get(&key).is_none() {
            let context = self.context(library, scopes, rule, scope)?;
            self.contexts.insert(key, context)?;
        }
        Ok(self.contexts.get(&key))
    }
}
