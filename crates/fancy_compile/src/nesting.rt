//! How deep easy nodes nest where they are written out.

ghost use Rattle.fancy_compile.specs.Nests.{NoneDeeper, OneDeeper, is_entered};
ghost use Rattle.fancy_code.specs.Nesting.{NestsDeeper};
ghost use Rattle.fancy_expr.specs.Each.{Each};
ghost use Rattle.fancy_info.specs.Infos.{info_tree};
ghost use Rattle.fancy_meaning.specs.OpenCalls.{Depths};
ghost use Rattle.fancy_meaning.specs.Options.{Analysis};
ghost use Rattle.fancy_meaning.specs.Tree.{Tree};
ghost use Rattle.fancy_nfa.specs.Neighbours.{IsEasy};
ghost use Rattle.std.specs.Prelude.{false, true, ◌≡◌};

use fancy_expr::expr::Expr;
use fancy_info::info::Info;

/// What stands in the node is written out with it: not in a loop that is never entered, nor in a definition.
fn is_entered(expr: &Expr) -> bool
    ensures { result ≡ is_entered expr.now }
{
    match expr {
        Expr::Repeat { hi, .. } => *hi != 0,
        Expr::DefineGroup { .. } => false,
        _ => true,
    }
}

/// More than so many nodes stand in one another, this one outermost.
#[cycle(nest)]
fn nests_deeper(info: &Info, most: usize) -> bool
    requires { (a : Analysis) × IsEasy a info.now }
    ensures deeper { result ≡ true
        → (whole : Tree) (calls : Depths)
        → NestsDeeper whole calls most (info_tree info.now) }
    ensures within { result ≡ false
        → (whole : Tree) (calls : Depths)
        → ¬ NestsDeeper whole calls most (info_tree info.now) }
{
    if most == 0 {
        return true;
    }
    if !is_entered(info.expr()) {
        return false;
    }
    one_nests_deeper(info.children(), most - 1)
}

/// The same of one of these.
#[cycle(nest)]
pub fn one_nests_deeper(infos: &[Info], most: usize) -> bool
    requires { (a : Analysis) × Each (IsEasy a) infos.now }
    ensures deeper { result ≡ true → OneDeeper most infos.now }
    ensures within { result ≡ false → NoneDeeper most infos.now }
{
    for info in infos {
        if nests_deeper(info, most) {
            return true;
        }
    }
    false
}
