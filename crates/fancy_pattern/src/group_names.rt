//! The names of groups, and the numbers of each.

ghost use Rattle.std.specs.Prelude.{◌≡◌, ℕ, List, map, string_bytes};
ghost use Rattle.fancy_pattern.specs.Naming.{if_any, numbers_of, numbers_in, pairs_in};

use crate::named::{numbers_of, pairs_of, text_of};
use fancy_tokens::tokens::Placed;
use std::alloc::{AllocError, Global};
use std::collections::BTreeMap;

/// The names of groups in the order in which the groups open, and the numbers of each name.
#[derive(Drop)]
pub struct GroupNames {
    pub pairs: Vec<(String, usize)>,
    pub numbers: BTreeMap<String, Vec<usize>>,
    ghost agrees: { (name : List ℕ) → numbers_in numbers name
        ≡ if_any (numbers_of (pairs_in pairs) name) },
}

impl GroupNames {
    ghost use Rattle.std.specs.Prelude.{IfOk, encode_utf8_all, map};
    ghost use Rattle.std.specs.List.{list_any};
    ghost use Rattle.fancy_pattern.specs.Spelling.{opens_named};
    ghost use Rattle.fancy_pattern.specs.Naming.{named_in};
    ghost use Rattle.fancy_tokens.specs.PatternViews.{placed_of};

    /// The names of these tokens, of which `has_names` tells whether there are any.
    pub(crate) fn of(
        alloc: Global,
        tokens: &[Placed<'_>],
        has_names: bool,
    ) -> Result<GroupNames, AllocError>
        requires { has_names ≡ list_any (λ p. opens_named p.token) (map placed_of tokens.now) }
        ensures { IfOk result (λ names. pairs_in names.pairs ≡ named_in (map placed_of tokens.now)) }
    {
        let pairs = pairs_of(alloc, tokens, has_names)?;
        let numbers = numbers_of(alloc, &pairs)?;
        Ok(GroupNames { pairs, numbers })
    }

    /// The numbers of the groups with this name, in ascending order.
    pub(crate) fn find(&self, alloc: Global, name: &[char]) -> Result<&[usize], AllocError>
        ensures { IfOk result (λ groups. groups.now
            ≡ numbers_of (pairs_in self.now.pairs) (encode_utf8_all name.now)) }
    {
        let name = text_of(alloc, name)?;
        match self.numbers.get(name.as_str()) {
            Some(groups) => Ok(groups),
            None => Ok(&[]),
        }
    }
}
