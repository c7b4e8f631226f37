//! Which results of a search for a tree hold from later places on too.

ghost use Rattle.std.specs.Prelude.{◌≡◌, ◌||◌};
ghost use Rattle.fancy_meaning.specs.Premises.{plan};
ghost use Rattle.fancy_steps.specs.Tasks.{options_of as run_options_of};
ghost use Rattle.fancy_search.specs.Searches.{input_of};
ghost use Rattle.fancy_scanner.specs.Reuse.{IsReuse, is_anchored};
ghost use Rattle.fancy_scanner.specs.Reuse as reuse;

use fancy_expr::expr::ExprTree;
use fancy_expr::nodes::{Question, has_node};
use fancy_search::search::SearchOptions;

/// Which results of a search for a tree hold from later places on too.
#[derive(Clone, Copy, Debug)]
pub(crate) enum Reuse {
    /// None: a `\G` asks where the search began, or one start alone is tried; or nothing is known of the tree.
    Nothing,
    /// That there is no match. A match may be said to begin elsewhere than where it was tried, by a `\K`.
    NoMatch,
    /// A match too, up to where it begins.
    Matches,
}

impl Reuse {
    /// Which answers last of the searches for this tree with these options.
    pub(crate) fn of(tree: &ExprTree, options: &SearchOptions) -> Reuse
        ensures { IsReuse
            (is_anchored
            (plan (input_of tree.now options.now.analysis options.now.compilation))
            (run_options_of options.now.run))
            (plan (input_of tree.now options.now.analysis options.now.compilation)).analysis.tree
            result }
    {
        if options.compilation.anchored || options.run.anchored {
            return Reuse::Nothing;
        }
        if has_node(&tree.expr, Question::IsContinue) {
            return Reuse::Nothing;
        }
        if has_node(&tree.expr, Question::IsKeepOut) {
            return Reuse::NoMatch;
        }
        Reuse::Matches
    }

    /// An answer lasts to this later place, where its match begins there, or where it has none.
    pub(crate) fn lasts_to(self, start: Option<usize>, pos: usize) -> bool
        ensures { result ≡ reuse.lasts_to self start pos }
    {
        match self {
            Reuse::Nothing => false,
            Reuse::NoMatch => start.is_none(),
            Reuse::Matches => match start {
                None => true,
                Some(start) => pos <= start,
            },
        }
    }
}
