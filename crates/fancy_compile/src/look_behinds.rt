//! Which look-behinds of no constant size are written by branches.

ghost use Rattle.fancy_info.specs.Infos.{info_size};
ghost use Rattle.fancy_compile.specs.AnalysedNodes.{has_const_branches, is_alt};
ghost use Rattle.std.specs.List.{list_all};
ghost use Rattle.std.specs.Prelude.{◌≡◌};

use fancy_expr::expr::Expr;
use fancy_info::info::Info;

fn is_alt(expr: &Expr) -> bool
    ensures { result ≡ is_alt expr.now }
{
    match expr {
        Expr::Alt(_) => true,
        _ => false,
    }
}

fn all_const(infos: &[Info]) -> bool
    ensures { result ≡ list_all (λ i. (info_size i).is_const) infos.now }
{
    infos.iter().all(|info| info.const_size())
}

/// An alternation, each branch of which takes as many characters each time.
pub fn has_const_branches(info: &Info) -> bool
    ensures { result ≡ has_const_branches info.now }
{
    is_alt(info.expr()) && all_const(info.children())
}
