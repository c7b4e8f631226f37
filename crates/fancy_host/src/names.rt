//! The names of groups.

ghost use Rattle.std.specs.Prelude.{◌≡◌, ◌==◌};
ghost use Rattle.std.specs.List.{list_any};
ghost use Rattle.fancy_analysis.specs.Names.{names_of};
ghost use Rattle.fancy_replace.specs.Reading.{groups_named};
ghost use Rattle.fancy_host.specs.Names.{name_in};

use std::collections::BTreeMap;

/// The numbers of the groups with this name.
pub fn numbers_named<'n>(names: &'n BTreeMap<String, Vec<usize>>, name: &str) -> &'n [usize]
    ensures { result.now ≡ groups_named (names_of names.now.entries) name.now }
{
    match names.get(name) {
        Some(groups) => groups,
        None => &[],
    }
}

/// The name of a group; empty where it has none.
pub fn name_of(names: &BTreeMap<String, Vec<usize>>, group: usize) -> &str
    ensures { result.now ≡ name_in (names_of names.now.entries) group }
{
    for (name, groups) in names {
        if has_number(groups, group) {
            return name.as_str();
        }
    }
    ""
}

fn has_number(groups: &Vec<usize>, group: usize) -> bool
    ensures { result ≡ list_any (λ g. g == group) groups.now.items }
{
    groups.contains(&group)
}
