//! The `Info` of one node, its size and hardness, from those of its children.

ghost use Rattle.std.specs.Prelude.{◌≡◌, map, slice_index_or, false};
ghost use Rattle.fancy_meaning.specs.Hard.{is_hard_assertion, is_in_behind, is_outside};
ghost use Rattle.fancy_meaning.specs.Sizes.{any_of, either, plus, size_of_group, size_of_target, sum_of};
ghost use Rattle.fancy_meaning.specs.Tree as plain;
ghost use Rattle.fancy_info.specs.Infos.{info_hard, info_size, analysis_options_of};
ghost use Rattle.fancy_expr.specs.Walk.{within_of};
ghost use Rattle.fancy_analysis.specs.Made.{IsMadeNode, absent_size, first_true, hard_over, is_hard_by_size, nth_size, read_flag, size_over, some_true, tables_known};
ghost use Rattle.fancy_info.specs.Sized.{size_of};
ghost use Rattle.fancy_expr.specs.Views.{assertion_of};

use fancy_expr::expr::{Absent, Assertion, Expr};
use fancy_expr::walk::Within;
use fancy_info::context::AnalyzeContext;
use fancy_info::info::Info;
use fancy_info::size::Size;

/// The tables that a visit of the tree goes by, and its options.
#[derive(Clone, Copy)]
pub struct VisitTables<'t> {
    pub context: AnalyzeContext,
    /// The sizes of the groups by number, that of the whole tree at 0, as far as they are known.
    pub known: &'t [Size],
    /// Which groups are read, by number.
    pub reads: &'t [bool],
}

pub fn known_size(known: &[Size], group: usize) -> Size
    ensures { size_of result ≡ size_of_target (map size_of known.now) group }
{
    match known.get(group) {
        Some(size) => *size,
        None => Size::unknown(),
    }
}

pub fn referred_size(known: &[Size], group: usize) -> Size
    ensures { size_of result ≡ size_of_group (map size_of known.now) group }
{
    if group == 0 {
        Size::unknown()
    } else {
        known_size(known, group)
    }
}

fn child_size(children: &[Info], i: usize) -> Size
    ensures { size_of result ≡ nth_size (map info_size children.now) i }
{
    match children.get(i) {
        Some(child) => child.size,
        None => Size::exactly(0),
    }
}

fn sum_of_sizes(children: &[Info]) -> Size
    ensures { size_of result ≡ sum_of (map info_size children.now) }
{
    let mut size = Size::exactly(0);
    for child in children {
        size = size.plus(child.size);
    }
    size
}

fn any_of_sizes(children: &[Info]) -> Size
    ensures { size_of result ≡ any_of (map info_size children.now) }
{
    let Some((first, rest)) = children.split_first() else {
        return Size::exactly(0);
    };
    let mut size = first.size;
    for child in rest {
        size = size.either(child.size);
    }
    size
}

fn absent_node_size(absent: &Absent, children: &[Info]) -> Size
    ensures { size_of result ≡ absent_size absent.now (map info_size children.now) }
{
    match absent {
        Absent::Repeater(_) => Size::unknown(),
        Absent::Expression { .. } => child_size(children, 1).varying(),
        Absent::Stopper(_) => Size::exactly(0),
        Absent::Clear => Size::exactly(0),
    }
}

fn conditional_size(children: &[Info]) -> Size
    ensures { size_of result
        ≡ either
        (plus (nth_size (map info_size children.now) 0) (nth_size (map info_size children.now) 1))
        (nth_size (map info_size children.now) 2) }
{
    child_size(children, 0)
        .plus(child_size(children, 1))
        .either(child_size(children, 2))
}

fn node_size(expr: &Expr, children: &[Info], known: &[Size]) -> Size
    ensures { size_of result
        ≡ size_over (map size_of known.now) expr.now (map info_size children.now) }
{
    match expr {
        Expr::Literal { .. } => Size::exactly(1),
        Expr::Any { .. } => Size::exactly(1),
        Expr::Delegate { .. } => Size::exactly(1),
        Expr::GeneralNewline { .. } => Size::between(1, 2),
        Expr::LiteralBytes { bytes } => Size::exactly(bytes.len()),
        Expr::Concat(_) => sum_of_sizes(children),
        Expr::Alt(_) => any_of_sizes(children),
        Expr::Repeat { lo, hi, .. } => child_size(children, 0).times(*lo, *hi),
        Expr::Group(_) => child_size(children, 0),
        Expr::AtomicGroup(_) => child_size(children, 0),
        Expr::Conditional { .. } => conditional_size(children),
        Expr::Absent(absent) => absent_node_size(absent, children),
        Expr::Backref { group, .. } => referred_size(known, *group),
        Expr::BackrefWithRelativeRecursionLevel { group, .. } => referred_size(known, *group),
        Expr::SubroutineCall(group) => known_size(known, *group),
        Expr::Empty => Size::exactly(0),
        Expr::Assertion(_) => Size::exactly(0),
        Expr::LookAround(_, _) => Size::exactly(0),
        Expr::KeepOut => Size::exactly(0),
        Expr::ContinueFromPreviousMatchEnd => Size::exactly(0),
        Expr::BackrefExistsCondition { .. } => Size::exactly(0),
        Expr::BacktrackingControlVerb(_) => Size::exactly(0),
        Expr::DefineGroup { .. } => Size::exactly(0),
        Expr::AstNode(_, _) => Size::exactly(0),
    }
}

fn has_hard(children: &[Info]) -> bool
    ensures { result ≡ some_true (map info_hard children.now) }
{
    for child in children {
        if child.hard {
            return true;
        }
    }
    false
}

fn first_is_hard(children: &[Info]) -> bool
    ensures { result ≡ first_true (map info_hard children.now) }
{
    match children.first() {
        Some(child) => child.hard,
        None => false,
    }
}

fn is_outside(within: Within) -> bool
    ensures { result ≡ is_outside (within_of within) }
{
    match within {
        Within::NoLook => true,
        Within::InLookAhead => false,
        Within::InLookBehind => false,
    }
}

fn is_in_behind(within: Within) -> bool
    ensures { result ≡ is_in_behind (within_of within) }
{
    match within {
        Within::NoLook => false,
        Within::InLookAhead => false,
        Within::InLookBehind => true,
    }
}

fn is_hard_assertion(assertion: Assertion, within: Within, context: AnalyzeContext) -> bool
    ensures { result
        ≡ is_hard_assertion (record { tree = plain.Empty; options = analysis_options_of context })
        (within_of within) (assertion_of assertion) }
{
    match assertion {
        Assertion::StartText => false,
        Assertion::EndText => {
            context.disallow_empty_match_at_eof_after_newline
                || (context.find_not_empty && is_outside(within))
        }
        Assertion::EndTextIgnoreTrailingNewlines { .. } => true,
        Assertion::StartLine { .. } => false,
        Assertion::StartLineOniguruma { .. } => is_outside(within),
        Assertion::EndLine { .. } => false,
        _ => is_in_behind(within),
    }
}

fn is_hard_by_size(size: Size, context: AnalyzeContext) -> bool
    ensures { result ≡ is_hard_by_size (analysis_options_of context) (size_of size) }
{
    (context.leftmost_longest || (context.find_not_empty && size.least == 0)) && !size.is_const
}

fn node_is_hard(
    expr: &Expr,
    children: &[Info],
    within: Within,
    size: Size,
    is_read: bool,
    context: AnalyzeContext,
) -> bool
    ensures { result
        ≡ hard_over (analysis_options_of context) expr.now (within_of within)
        (size_of size) is_read (map info_hard children.now) }
{
    match expr {
        Expr::Empty => false,
        Expr::Any { .. } => false,
        Expr::Literal { .. } => false,
        Expr::Delegate { .. } => false,
        Expr::DefineGroup { .. } => false,
        Expr::Assertion(assertion) => is_hard_assertion(*assertion, within, context),
        Expr::Concat(_) => has_hard(children) || is_hard_by_size(size, context),
        Expr::Alt(_) => has_hard(children) || is_hard_by_size(size, context),
        Expr::Group(_) => is_read || first_is_hard(children) || is_hard_by_size(size, context),
        Expr::Repeat { .. } => first_is_hard(children) || is_hard_by_size(size, context),
        _ => true,
    }
}

fn is_read_group(expr: &Expr, number: usize, reads: &[bool]) -> bool
    ensures { result ≡ read_flag reads.now expr.now number }
{
    match expr {
        Expr::Group(_) => match reads.get(number) {
            Some(flag) => *flag,
            None => false,
        },
        _ => false,
    }
}

/// A node over its children, where the next group has the second number.
pub fn make_info<'a>(
    tables: &VisitTables,
    expr: &'a Expr,
    children: Vec<Info<'a>>,
    start_group: usize,
    end_group: usize,
    within: Within,
) -> Info<'a>
    ensures { IsMadeNode tables.now expr.now start_group end_group
        (within_of within) children.entry.items result }
{
    let size = node_size(expr, &children, tables.known);
    let is_read = is_read_group(expr, start_group, tables.reads);
    let hard = node_is_hard(expr, &children, within, size, is_read, tables.context);
    Info {
        expr,
        children,
        start_group,
        end_group,
        size,
        hard,
        is_read,
        within,
        context: tables.context,
    }
}
