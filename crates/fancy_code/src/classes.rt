//! Classes: equal ones share one matcher.

ghost use Rattle.fancy_meaning.specs.Tree as plain_tree;
ghost use Rattle.fancy_characters.specs.Classes.{IsClassRefusal, class_of};
ghost use Rattle.fancy_code.specs.ClassKeys.{AreClasses, class_key, reading};
ghost use Rattle.fancy_meaning.specs.Chars.{is_class};
ghost use Rattle.fancy_meaning.specs.Instr.{Codepoint};
ghost use Rattle.std.specs.Prelude.{IfErr, IfOk, IsTrue, string_bytes, ◌≡◌};

use crate::writer::CodeWriter;
use fancy_characters::classes::CharClassMatcher;
use fancy_expr::error::Error;
use fancy_program::insn::Insn;
use std::alloc::{AllocError, Global};
use std::collections::BTreeMap;
use std::sync::Arc;

/// The classes of a program, each compiled once.
#[derive(Drop)]
pub struct SharedClasses {
    /// By how they are read, and their texts.
    classes: BTreeMap<String, Arc<CharClassMatcher>>,
    ghost known: { AreClasses classes },
}

/// How a class is read, in two letters.
fn reading(casei: bool, unicode: bool) -> &'static str
    ensures { result.now ≡ reading unicode casei }
{
    if unicode {
        if casei { "ui" } else { "uc" }
    } else {
        if casei { "ai" } else { "ac" }
    }
}

/// The key of a class.
fn class_key(alloc: Global, inner: &str, casei: bool, unicode: bool) -> Result<String, AllocError>
    ensures { IfOk result (λ key. string_bytes key ≡ class_key unicode inner.now casei) }
{
    let reading = reading(casei, unicode);
    let mut key = String::with_capacity(alloc, reading.len() + inner.len())?;
    key.push_str(reading)?;
    key.push_str(inner)?;
    Ok(key)
}

impl SharedClasses {
    /// None yet.
    pub fn new(alloc: Global) -> SharedClasses {
        SharedClasses {
            classes: BTreeMap::new(alloc),
        }
    }

    /// The class of this text, compiled where it is not there yet, or why there is none.
    pub fn get(
        &mut self,
        alloc: Global,
        inner: &str,
        casei: bool,
        unicode: bool,
    ) -> Result<Arc<CharClassMatcher>, Error>
        ensures class { IfOk result (λ class.
            class_of class.value ≡ Codepoint inner.now casei unicode) }
        ensures is_class { IfOk result (λ _. IsTrue (is_class unicode inner.now casei)) }
        ensures refused { IfErr result (IsClassRefusal unicode inner.now casei) }
    {
        let key = class_key(alloc, inner, casei, unicode)?;
        match self.classes.get(key.as_str()) {
            Some(class) => return Ok(Arc::clone(class)?),
            None => {}
        }
        let class = CharClassMatcher::codepoint(alloc, inner, casei, unicode)?;
        let shared = Arc::new(alloc, class)?;
        self.classes.insert(key, Arc::clone(&shared)?)?;
        Ok(shared)
    }
}

impl CodeWriter {
    ghost use Rattle.fancy_code.specs.Drafts.{draft_of};
    ghost use Rattle.fancy_code.specs.Leaves.{WritesTreeBy};

    pub fn emit_class(&mut self, alloc: Global, inner: &str, casei: bool, unicode: bool)
        ensures { WritesTreeBy unicode (plain_tree.Delegate inner.now casei)
            (draft_of self.old) (draft_of self.new) }
    {
        match self.classes.get(alloc, inner, casei, unicode) {
            Ok(class) => self.push(Insn::CharClass(class)),
            Err(error) => self.fail(error),
        }
    }
}
