//! The names of groups, by their numbers.

use std::alloc::{AllocError, Global};
use std::collections::BTreeMap;

/// The name of each group that has one. Of several names of a group it is the last in order.
#[derive(Drop)]
pub struct GroupNames {
    names: BTreeMap<usize, String>,
}

impl GroupNames {
    /// The names of these numbers, as in `named_groups` of an `ExprTree`. Fails only if an allocation fails.
    pub fn new(
        alloc: Global,
        numbers: &BTreeMap<String, Vec<usize>>,
    ) -> Result<GroupNames, AllocError> {
        let mut names = BTreeMap::new(alloc);
        for (name, groups) in numbers.iter() {
            for group in groups {
                names.insert(*group, name.clone()?)?;
            }
        }
        Ok(GroupNames { names })
    }

    /// The name of the group with this number, if it has one.
    pub fn get(&self, group: usize) -> Option<&str> {
        match self.names.get(&group) {
            Some(name) => Some(name.as_str()),
            None => None,
        }
    }

    /// Writes `group 1`, and for a group with a name `group 1 (name)`.
    pub fn push_group(&self, out: &mut String, group: usize) -> Result<(), AllocError> {
        match self.get(group) {
            Some(name) => write!(out, "group {group} ({name})"),
            None => write!(out, "group {group}"),
        }
    }
}
