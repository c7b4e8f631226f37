//! Tokens: what a pattern is made of, each with its place. The flags of that place are taken into account.

ghost use Rattle.std.specs.Prelude.{◌≡◌};
ghost use Rattle.fancy_tokens.specs.Tokens as plain;

use crate::error::ErrorKind;
use crate::flags::Flags;
use fancy_expr::expr::{Assertion, BacktrackingControlVerb, LookAround};

/// An atom that is a node by itself and has no text.
#[derive(Clone, Copy)]
pub enum Leaf {
    Any { newline: bool, crlf: bool },
    Assertion(Assertion),
    GeneralNewline { unicode: bool },
    Literal { val: char, casei: bool },
    HexDigits { negated: bool },
    KeepOut,
    ContinueFromPreviousMatchEnd,
    AbsentClear,
    Verb(BacktrackingControlVerb),
}

/// What is done with a group that is named.
#[derive(Clone, Copy)]
pub enum Naming {
    Backref { casei: bool },
    Exists,
    Call,
}

/// How a group is named.
#[derive(Clone, Copy)]
pub enum Target<'a> {
    Name(&'a [char]),
    /// By its number, or by how far back or on from here it is.
    Number(usize),
    /// Before group 1, or past the largest number.
    Nowhere,
}

/// What names a group.
#[derive(Clone, Copy)]
pub struct Reference<'a> {
    pub naming: Naming,
    pub target: Target<'a>,
    pub level: Option<isize>,
    /// How many characters of the pattern begin where the name or the number is.
    pub left: usize,
}

/// What stands around alternatives, up to the closing parenthesis.
#[derive(Clone, Copy)]
pub enum Enclosing {
    /// It adds no node.
    Plain,
    Atomic,
    Define,
    Look(LookAround),
    AbsentRepeater,
}

/// What an opening parenthesis begins.
#[derive(Clone, Copy)]
pub enum Opening<'a> {
    Enclosing(Enclosing),
    Group {
        number: usize,
        name: Option<&'a [char]>,
    },
    /// `(?~|`
    AbsentBar,
    /// A conditional that asks for a group.
    If(Reference<'a>),
    /// A conditional and the parenthesis of its condition, a pattern.
    IfPattern,
    /// A conditional and the parenthesis of its condition, a look-around.
    IfLook(LookAround),
}

/// A quantifier, as far as `*` or the counts say.
#[derive(Clone, Copy)]
pub enum Quantifier {
    Star,
    Plus,
    Question,
    /// With `usize::MAX` as `hi` there is no bound.
    Counts { lo: usize, hi: usize },
}

/// What a `?` or a `+` behind a quantifier makes of it.
#[derive(Clone, Copy)]
pub enum Suffix {
    /// Lazy in place of greedy, or greedy in place of lazy.
    Turned,
    Possessive,
}

/// What a class is made of, as it is handed on.
#[derive(Clone, Copy)]
pub enum ClassPiece<'a> {
    Char(char),
    /// With a backslash before it.
    Escaped(char),
    /// By its number.
    Code(char),
    /// A backslash, this letter and this text.
    Set { letter: char, text: &'a [char] },
    HexDigits { negated: bool },
    Backspace,
    Escape,
}

/// What names a group, and the byte where its token begins.
#[derive(Drop)]
pub struct PlacedReference<'a> {
    pub reference: Reference<'a>,
    pub at: usize,
}

/// What an opening parenthesis begins, and the byte where that stands.
#[derive(Drop)]
pub struct PlacedOpening<'a> {
    pub opening: Opening<'a>,
    pub at: usize,
}

/// A token, in 24 bytes: what takes more is behind a pointer.
#[derive(Drop)]
pub enum Token<'a> {
    Leaf(Leaf),
    /// A set of characters: a backslash, this letter and this text.
    Set {
        casei: bool,
        letter: char,
        text: &'a [char],
    },
    /// What names a group by its number, and no level.
    Numbered {
        naming: Naming,
        number: usize,
        left: usize,
    },
    /// What names a group otherwise.
    Refer(Box<PlacedReference<'a>>),
    /// A flags item, `(?i)`.
    Flags,
    Enclosing(Enclosing),
    /// A group without a name, by its number.
    Group(usize),
    /// Any other opening parenthesis.
    Open(Box<PlacedOpening<'a>>),
    Bar,
    Close,
    Star {
        greedy: bool,
    },
    Plus {
        greedy: bool,
    },
    Question {
        greedy: bool,
    },
    Counts {
        greedy: bool,
        lo: usize,
        hi: usize,
    },
    /// The `[` of a class.
    ClassOpen {
        casei: bool,
    },
    ClassChar(char),
    ClassEscaped(char),
    ClassCode(char),
    ClassSet {
        letter: char,
        text: &'a [char],
    },
    ClassHexDigits {
        negated: bool,
    },
    ClassBackspace,
    ClassEscape,
    /// The `]` of a class.
    ClassClose,
    /// What cannot be read; the last token.
    Broken(ErrorKind),
}

/// A token, and where it is.
#[derive(Drop)]
pub struct Placed<'a> {
    /// How many characters of the pattern begin where it does.
    pub left: usize,
    pub token: Token<'a>,
}

/// A token as it is found: what takes more than 24 bytes is not behind a pointer yet.
#[derive(Drop)]
pub enum Unboxed<'a> {
    Token(Token<'a>),
    Refer(Reference<'a>),
    Open(Opening<'a>),
}

/// A token as it is found, and the flags that hold behind it.
#[derive(Drop)]
pub struct Item<'a> {
    pub token: Unboxed<'a>,
    pub flags: Flags,
}

impl<'a> Item<'a> {
    ghost use Rattle.fancy_tokens.specs.Tokens.{item};
    ghost use Rattle.fancy_tokens.specs.PatternViews.{item_of, unboxed_of};

    pub fn new(flags: Flags, token: Unboxed<'a>) -> Item<'a>
        ensures { item_of result ≡ item flags (unboxed_of token.entry) }
    {
        Item { token, flags }
    }
}
