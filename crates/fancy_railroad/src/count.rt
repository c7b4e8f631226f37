//! How many nodes a tree has.

ghost use Rattle.std.specs.Prelude.{◌≡◌, length};
ghost use Rattle.fancy_meaning.specs.Sizes.{saturated};
ghost use Rattle.fancy_expr.specs.Exprs.{exprs};

use fancy_expr::expr::Expr;
use fancy_expr::parts::{part, part_count};

/// How many nodes there are, this one and those below it, or the largest number where it cannot be said.
pub fn count_nodes(expr: &Expr) -> usize
    ensures { result ≡ saturated (length (exprs expr.now)) }
{
    let mut count: usize = 1;
    for i in 0..part_count(expr) {
        count = count.saturating_add(count_nodes(part(expr, i)));
    }
    count
}
