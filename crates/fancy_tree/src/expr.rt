//! The trees that the engine is given, the test of them, and the reader of their notation.

pub use fancy_expr::expr::{
    Absent, Assertion, AstNode, BacktrackingControlVerb, CaptureGroupTarget, Expr, ExprTree,
    LookAround, is_well_formed,
};
pub use fancy_notation::notation::read_tree;
