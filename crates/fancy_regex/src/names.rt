//! The groups of a pattern, and their names.

ghost use Rattle.std.specs.Prelude.{◌≡◌, ◌-◌, ◌==◌, option_map};
ghost use Rattle.std.specs.Iterator.{at_most};
ghost use Rattle.std.specs.List.{list_any};
ghost use Rattle.fancy_regex.specs.Names.{NextName, name_of, names_in, numbers_named};

use std::alloc::Global;
use std::collections::BTreeMap;

/// How many groups a pattern has, and the numbers of the groups with each name.
#[derive(Drop)]
pub struct GroupNames {
    pub(crate) alloc: Global,
    /// The numbers of each name, in the order in which the groups open.
    pub(crate) numbers: BTreeMap<String, Vec<usize>>,
    /// How many groups there are, with group 0.
    pub(crate) count: usize,
}

impl GroupNames {
    /// The numbers of the groups with this name.
    pub(crate) fn named(&self, name: &str) -> &[usize]
        ensures { result.now ≡ numbers_named (names_in self.now) name.now }
    {
        match self.numbers.get(name) {
            Some(groups) => groups,
            None => &[],
        }
    }

    /// The name of a group, if it has one.
    pub(crate) fn name_of(&self, group: usize) -> Option<&str>
        ensures { option_map (λ name. name.now) result ≡ name_of (names_in self.now) group }
    {
        for (name, groups) in &self.numbers {
            if has_number(groups, group) {
                return Some(name.as_str());
            }
        }
        None
    }
}

fn has_number(groups: &Vec<usize>, group: usize) -> bool
    ensures { result ≡ list_any (λ g. g == group) groups.now.items }
{
    groups.contains(&group)
}

/// The names of all groups, from group 0 on; [`Regex::capture_names`](crate::regexes::Regex::capture_names) makes it. An
/// item is `None` if its group has no name.
#[derive(Drop)]
pub struct CaptureNames<'r> {
    pub(crate) names: &'r GroupNames,
    pub(crate) next: usize,
}

impl<'r> Iterator for CaptureNames<'r> {
    type Item = Option<&'r str>;

    ghost next_gives = { NextName (λ name. name.now) };

    ghost remaining = { λ s. at_most (s.names.now.count - s.next) };

    fn next(&mut self) -> Option<Option<&'r str>> {
        if self.next >= self.names.count {
            return None;
        }
        let name = self.names.name_of(self.next);
        self.next += 1;
        Some(name)
    }
}
