//! The head words of the notation, by what follows them: `Form` and its parts.

use fancy_expr::expr::LookAround;

/// What stands around one expression.
#[derive(Clone, Copy)]
pub enum Enclosing {
    Group,
    Atomic,
    Define,
    Look(LookAround),
    AbsentRepeater,
    AbsentStopper,
}

/// What names a group.
#[derive(Clone, Copy)]
pub enum Naming {
    Backref { casei: bool },
    Exists,
    Call,
}

/// What names a group and a level of recursion.
#[derive(Clone, Copy)]
pub enum Leveled {
    Backref,
    Exists,
}

/// What the word after an opening parenthesis begins.
#[derive(Clone, Copy)]
pub enum Form {
    Cat,
    Alt,
    Enclosing(Enclosing),
    Repeat { greedy: bool },
    Set { casei: bool },
    Bytes,
    Naming(Naming),
    Leveled(Leveled),
    Verb,
    Conditional,
    AbsentExpression,
}
