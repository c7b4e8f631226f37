//! What a list writes of a match: where it is, or where all its groups are.

ghost use Rattle.std.specs.Prelude.{◌≡◌, ◌≤◌, [], ◌∷◌, ℕ, List, length};
ghost use Rattle.fancy_steps.specs.Outcomes.{first_pair};
ghost use Rattle.fancy_matches.specs.Matchers.{span_of};
ghost use Rattle.fancy_host.specs.Hosted.{over_from};
ghost use Rattle.fancy_host.specs.Lists.{Form, all_groups, row_of, span_alone};

use crate::writing::write_from;
use fancy_expr::error::Error;
use fancy_matches::found::Match;
use fancy_matches::searches::FromSearch;
use fancy_search::scratch::Scratch;
use fancy_search::search::Compiled;
use fancy_vm::vm::RunOptions;
use std::alloc::Global;

/// What a list writes of a match.
pub trait Row<'t>: FromSearch<'t> {
    ghost form: { Form };

    // the row, by what is told
    ghost row: { Self → List ℕ };

    /// Writes the row of the match from this place on.
    fn write(&self, at: usize, room: &mut [usize])
        requires { at ≤ length room.old }
        ensures written { room.new ≡ over_from at (row self.now) room.old }
        // what is shown tells the row
        ensures tells { (text numbers : List ℕ)
            → Self.show self.now ≡ Self.seen text numbers
            → row self.now ≡ row_of form numbers };
}

/// Where it is.
impl<'t> Row<'t> for Match<'t> {
    ghost form = { span_alone };

    ghost row = { λ m. (span_of m).0 ∷ (span_of m).1 ∷ [] };

    fn write(&self, at: usize, room: &mut [usize]) {
        write_from(&[self.start(), self.end()], at, room)
    }
}

/// Start and end of each group of a match.
#[derive(Drop)]
pub struct Groups {
    numbers: Vec<usize>,
    ghost has_whole: { 2 ≤ length numbers.items },
}

impl<'t> FromSearch<'t> for Groups {
    ghost Shown = { List ℕ };

    ghost show = { λ g. g.numbers.items };

    ghost seen = { λ text numbers. numbers };

    ghost span = { λ g. first_pair g.numbers.items };

    fn search(
        alloc: Global,
        compiled: &Compiled,
        text: &'t str,
        options: &RunOptions,
        scratch: &mut Scratch,
    ) -> Result<Option<Groups>, Error> {
        match compiled.search(alloc, text, options, scratch) {
            Ok(None) => Ok(None),
            Ok(Some(numbers)) => Ok(Some(Groups { numbers })),
            Err(error) => Err(error),
        }
    }

    fn span(&self) -> (usize, usize) {
        (self.numbers[0], self.numbers[1])
    }
}

impl<'t> Row<'t> for Groups {
    ghost form = { all_groups };

    ghost row = { λ g. g.numbers.items };

    fn write(&self, at: usize, room: &mut [usize]) {
        write_from(&self.numbers, at, room)
    }
}
