//! Trees: `Expr` and its parts, and `ExprTree`, a tree with what its reader says of it.

pub use crate::well_formed::is_well_formed;
use std::collections::{BTreeMap, BTreeSet};

/// What is asserted of a place.
#[derive(Clone, Copy, Debug, PartialEq, Eq)]
pub enum Assertion {
    StartText,
    EndText,
    EndTextIgnoreTrailingNewlines { crlf: bool },
    StartLine { crlf: bool },
    StartLineOniguruma { crlf: bool },
    EndLine { crlf: bool },
    LeftWordBoundary,
    RightWordBoundary,
    LeftWordHalfBoundary,
    RightWordHalfBoundary,
    WordBoundary,
    NotWordBoundary,
}

/// A look-around, by its direction.
#[derive(Clone, Copy, Debug, PartialEq, Eq)]
pub enum LookAround {
    LookAhead,
    LookAheadNeg,
    LookBehind,
    LookBehindNeg,
}

/// What a reference names that was not resolved.
#[derive(Drop, Debug)]
pub enum CaptureGroupTarget {
    ByName(String),
    ByNumber(usize),
    Relative(isize),
}

/// A node that was not resolved.
#[derive(Drop, Debug)]
pub enum AstNode {
    AstGroup,
    Backref(CaptureGroupTarget),
    BackrefExistsCondition(CaptureGroupTarget),
    SubroutineCall(CaptureGroupTarget),
}

/// A verb that steers the search.
#[derive(Clone, Copy, Debug, PartialEq, Eq)]
pub enum BacktrackingControlVerb {
    Fail,
    Accept,
    Commit,
    Skip,
    Prune,
}

/// A node that takes what holds no match of a part.
#[derive(Debug)]
#[cycle(expr)]
pub enum Absent {
    Repeater(Box<Expr>),
    Expression { absent: Box<Expr>, exp: Box<Expr> },
    Stopper(Box<Expr>),
    Clear,
}

/// A node of a tree, with all below it; "docs/MEANING.md" says what each matches.
#[derive(Debug)]
#[cycle(expr)]
pub enum Expr {
    Empty,
    Any {
        newline: bool,
        crlf: bool,
    },
    Assertion(Assertion),
    GeneralNewline {
        unicode: bool,
    },
    /// One character.
    Literal {
        val: String,
        casei: bool,
    },
    /// The characters with these numbers.
    LiteralBytes {
        bytes: Vec<u8>,
    },
    Concat(Vec<Expr>),
    Alt(Vec<Expr>),
    Group(Box<Expr>),
    LookAround(Box<Expr>, LookAround),
    /// With `usize::MAX` as `hi` there is no bound.
    Repeat {
        child: Box<Expr>,
        lo: usize,
        hi: usize,
        greedy: bool,
    },
    /// A class of characters, by its text.
    Delegate {
        inner: String,
        casei: bool,
    },
    Backref {
        group: usize,
        casei: bool,
    },
    BackrefWithRelativeRecursionLevel {
        group: usize,
        relative_level: isize,
        casei: bool,
    },
    AtomicGroup(Box<Expr>),
    KeepOut,
    ContinueFromPreviousMatchEnd,
    BackrefExistsCondition {
        group: usize,
        relative_recursion_level: Option<isize>,
    },
    BacktrackingControlVerb(BacktrackingControlVerb),
    Conditional {
        condition: Box<Expr>,
        true_branch: Box<Expr>,
        false_branch: Box<Expr>,
    },
    /// Of a group, or with 0 of the whole tree.
    SubroutineCall(usize),
    Absent(Absent),
    DefineGroup {
        definitions: Box<Expr>,
    },
    AstNode(AstNode, usize),
}

/// A tree, with what its reader says of it; `is_well_formed` tests whether it may be handed in.
pub struct ExprTree {
    pub expr: Expr,
    /// The groups that back references name.
    pub backrefs: BTreeSet<usize>,
    /// A number that a reference names and no group has.
    pub out_of_range_backref: Option<usize>,
    /// The numbers of each name.
    pub named_groups: BTreeMap<String, Vec<usize>>,
    pub numeric_capture_group_references: bool,
    pub numbered_groups_ignored: bool,
    pub contains_subroutines: bool,
    /// How many groups the tree has.
    pub total_groups: usize,
}

impl ExprTree {
    ghost use Rattle.std.specs.Prelude.{◌≡◌};

    /// The numbers of each name.
    pub fn into_named_groups(self) -> BTreeMap<String, Vec<usize>>
        ensures { result ≡ self.named_groups }
    {
        let ExprTree {
            expr: _,
            backrefs: _,
            out_of_range_backref: _,
            named_groups,
            numeric_capture_group_references: _,
            numbered_groups_ignored: _,
            contains_subroutines: _,
            total_groups: _,
        } = self;
        named_groups
    }
}

// These drops are written by hand, and do what a derived one does: whoever owns a tree calls them, where the parts of
// a derived one would be proved again in each function that does.

impl Drop for Absent {
    #[cycle(drop)]
    fn drop(self) {
        match self {
            Absent::Repeater(_) => {}
            Absent::Expression { absent: _, exp: _ } => {}
            Absent::Stopper(_) => {}
            Absent::Clear => {}
        }
    }
}

impl Drop for Expr {
    #[cycle(drop)]
    fn drop(self) {
        match self {
            Expr::Empty | Expr::KeepOut | Expr::ContinueFromPreviousMatchEnd => {}
            Expr::Any {
                newline: _,
                crlf: _,
            } => {}
            Expr::Assertion(_) => {}
            Expr::GeneralNewline { unicode: _ } => {}
            Expr::Literal { val: _, casei: _ } => {}
            Expr::LiteralBytes { bytes: _ } => {}
            Expr::Concat(_) | Expr::Alt(_) => {}
            Expr::Group(_) | Expr::AtomicGroup(_) => {}
            Expr::LookAround(_, _) => {}
            Expr::Repeat {
                child: _,
                lo: _,
                hi: _,
                greedy: _,
            } => {}
            Expr::Delegate { inner: _, casei: _ } => {}
            Expr::Backref { group: _, casei: _ } => {}
            Expr::BackrefWithRelativeRecursionLevel {
                group: _,
                relative_level: _,
                casei: _,
            } => {}
            Expr::BackrefExistsCondition {
                group: _,
                relative_recursion_level: _,
            } => {}
            Expr::BacktrackingControlVerb(_) => {}
            Expr::Conditional {
                condition: _,
                true_branch: _,
                false_branch: _,
            } => {}
            Expr::SubroutineCall(_) => {}
            Expr::Absent(_) => {}
            Expr::DefineGroup { definitions: _ } => {}
            Expr::AstNode(_, _) => {}
        }
    }
}

impl Drop for ExprTree {
    fn drop(self) {
        let ExprTree {
            expr: _,
            backrefs: _,
            out_of_range_backref: _,
            named_groups: _,
            numeric_capture_group_references: _,
            numbered_groups_ignored: _,
            contains_subroutines: _,
            total_groups: _,
        } = self;
    }
}
