//! Which characters a node matches, as bytes.

ghost use Rattle.std.specs.Prelude.{IfOk, IfSome};
ghost use Rattle.fancy_meaning.specs.Chars.{literal_takes};
ghost use Rattle.fancy_meaning.specs.Machine.{class_test};
ghost use Rattle.fancy_meaning.specs.Tree as plain;
ghost use Rattle.fancy_characters.specs.Classes.{class_of};
ghost use Rattle.fancy_expr.specs.Views.{tree_of};
ghost use Rattle.fancy_literals.specs.Characters.{AreCharacters, Tells};

use fancy_characters::classes::{CharClassMatcher, folds_to_others, literal_takes};
use fancy_expr::error::Error;
use fancy_expr::expr::Expr;
use std::alloc::{AllocError, Global};

/// The ASCII characters that the node matches, and all other bytes if it may match another character; `None` if it is no
/// literal and no class. The only error is out of memory.
pub(crate) fn characters_of(
    alloc: Global,
    expr: &Expr,
    unicode: bool,
) -> Result<Option<[bool; 256]>, AllocError>
    ensures { IfOk result (λ found. IfSome found (λ bytes.
        AreCharacters unicode bytes (tree_of expr.now))) }
{
    match expr {
        Expr::Literal { val, casei } => match val.chars().next() {
            Some(character) => Ok(Some(literal_characters(character, *casei, unicode))),
            None => Ok(None),
        },
        Expr::Delegate { inner, casei } => {
            match CharClassMatcher::codepoint(alloc, inner, *casei, unicode) {
                Ok(class) => Ok(Some(class_characters(&class))),
                Err(Error::Memory) => Err(AllocError),
                Err(_) => Ok(None),
            }
        }
        _ => Ok(None),
    }
}

/// The same of a literal.
fn literal_characters(character: char, casei: bool, unicode: bool) -> [bool; 256]
    ensures { Tells result (literal_takes unicode character casei) }
{
    let code = character as u32;
    let others = if casei {
        folds_to_others(unicode, code)
    } else {
        code >= 128
    };
    let mut bytes = [others; 256];
    'ascii: for byte in 0..128u8 {
        bytes[byte as usize] = literal_takes(unicode, code, casei, byte as u32);
    }
    bytes
}

/// The same of a class that was read.
fn class_characters(class: &CharClassMatcher) -> [bool; 256]
    ensures { Tells result (class_test (class_of class.now)) }
{
    let others = class.takes_others();
    let mut bytes = [others; 256];
    'ascii: for byte in 0..128u8 {
        bytes[byte as usize] = class.takes_ascii(byte);
    }
    bytes
}
