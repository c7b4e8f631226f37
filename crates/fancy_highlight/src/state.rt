//! The state between two lines.

use crate::frames::Stack;

/// What the lines before a line leave to it: the regions that are open, and the rules that are left out. If it is equal
/// before and after an edit, so are the tokens of the lines that follow.
#[derive(Clone, Debug, PartialEq, Eq, Drop)]
pub struct State {
    /// No line is before.
    pub(crate) is_first: bool,
    pub(crate) stack: Stack,
    /// The numbers of the rules that are left out.
    pub(crate) left_out: Vec<usize>,
}
