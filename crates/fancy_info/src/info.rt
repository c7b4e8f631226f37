//! `Info`, a node with its group numbers, size, hardness and options, and its readers.

ghost use Rattle.std.specs.Prelude.{◌≡◌};
ghost use Rattle.fancy_info.specs.Infos.{info_children, info_facts, info_size, is_look};

use crate::context::AnalyzeContext;
use crate::size::Size;
use fancy_expr::expr::Expr;
use fancy_expr::walk::Within;

/// A node with what the analysis found.
#[derive(Debug)]
pub struct Info<'a> {
    pub expr: &'a Expr,
    pub children: Vec<Info<'a>>,
    pub start_group: usize,
    pub end_group: usize,
    pub size: Size,
    pub hard: bool,
    pub is_read: bool,
    pub within: Within,
    pub context: AnalyzeContext,
}

// Not derived: whoever owns one calls this drop, and would prove a derived one again (docs/GATE.md).
impl Drop for Info<'_> {
    fn drop(self) {
        let Info {
            expr: _,
            children: _,
            start_group: _,
            end_group: _,
            size: _,
            hard: _,
            is_read: _,
            within: _,
            context: _,
        } = self;
    }
}

/// What `analyze` says of a node, by the rules of "docs/MEANING.md". Sizes are numbers of characters. No reader takes
/// memory.
impl<'a> Info<'a> {
    /// The least number of characters that the node takes.
    pub fn min_size(&self) -> usize
        ensures { result ≡ (info_size self.now).least }
    {
        self.size.least
    }

    /// The greatest number of characters that the node takes; `usize::MAX` is no bound.
    pub fn max_size(&self) -> usize
        ensures { result ≡ (info_size self.now).most }
    {
        self.size.most
    }

    /// Whether every way of the node takes as many characters.
    pub fn const_size(&self) -> bool
        ensures { result ≡ (info_size self.now).is_const }
    {
        self.size.is_const
    }

    /// Whether the node is hard: it is not left to a plain search.
    pub fn hard(&self) -> bool
        ensures { result ≡ (info_facts self.now).hard }
    {
        self.hard
    }

    /// The node.
    pub fn expr(&self) -> &'a Expr
        ensures { result.now ≡ (info_facts self.now).expr }
    {
        self.expr
    }

    /// The node's children, in order: condition, true and false branch of a conditional, what is absent and the
    /// expression of an absent expression.
    pub fn children(&self) -> &[Info<'a>]
        ensures { result.now ≡ info_children self.now }
    {
        &self.children
    }

    /// The next free group number before the node.
    pub fn start_group(&self) -> usize
        ensures { result ≡ (info_facts self.now).start_group }
    {
        self.start_group
    }

    /// The next free group number after the node.
    pub fn end_group(&self) -> usize
        ensures { result ≡ (info_facts self.now).end_group }
    {
        self.end_group
    }

    /// Whether the analysis had `explicit_capture_group_0`.
    pub fn explicit_capture_group_0(&self) -> bool
        ensures { result ≡ (info_facts self.now).options.explicit_capture_group_0 }
    {
        self.context.explicit_capture_group_0
    }

    /// Whether the analysis had `find_not_empty`.
    pub fn find_not_empty(&self) -> bool
        ensures { result ≡ (info_facts self.now).options.find_not_empty }
    {
        self.context.find_not_empty
    }

    /// Whether the analysis had `disallow_empty_match_at_eof_after_newline`.
    pub fn end_text_option(&self) -> bool
        ensures { result ≡ (info_facts self.now).options.end_text }
    {
        self.context.disallow_empty_match_at_eof_after_newline
    }

    /// Whether the analysis had `leftmost_longest`.
    pub fn leftmost_longest(&self) -> bool
        ensures { result ≡ (info_facts self.now).options.leftmost_longest }
    {
        self.context.leftmost_longest
    }

    /// Whether the node is a group that a back reference or an existence condition of the tree names.
    pub fn is_read(&self) -> bool
        ensures { result ≡ (info_facts self.now).is_read }
    {
        self.is_read
    }

    /// Whether the node stands in a look-around of the tree.
    pub fn in_look_around(&self) -> bool
        ensures { result ≡ is_look (info_facts self.now).within }
    {
        match self.within {
            Within::NoLook => false,
            Within::InLookAhead => true,
            Within::InLookBehind => true,
        }
    }
}
