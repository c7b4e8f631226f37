//! The children of an analysed tree, where all are easy.

ghost use Rattle.std.specs.List.{list_all};
ghost use Rattle.std.specs.Prelude.{IfSome, not, ◌≡◌};
ghost use Rattle.fancy_meaning.specs.Options.{AnalysisOptions};
ghost use Rattle.fancy_expr.specs.Sound.{IsWellFormedTree};
ghost use Rattle.fancy_info.specs.Infos.{info_facts};
ghost use Rattle.fancy_analysis.specs.Analyses.{IsAnalysisOf};
ghost use Rattle.fancy_fragments.specs.Nodes.{AreEasyNeighbours};

use fancy_regex_engine::analyze::Info;
use fancy_regex_engine::expr::ExprTree;

/// None of the nodes is hard.
fn are_easy(infos: &[Info<'_>]) -> bool
    ensures { result ≡ list_all (λ i. not (info_facts i).hard) infos.now }
{
    infos.iter().all(|info| !info.hard())
}

/// The children of the tree that was analysed, where none of them is hard.
pub fn easy_children<'i, 'a>(tree: &ExprTree, info: &'i Info<'a>) -> Option<&'i [Info<'a>]>
    requires tree { IsWellFormedTree tree.now }
    requires analysis { (options : AnalysisOptions) × IsAnalysisOf tree.now options info.now }
    ensures { IfSome result (λ infos. AreEasyNeighbours infos.now) }
{
    let children = info.children();
    if are_easy(children) {
        Some(children)
    } else {
        None
    }
}
