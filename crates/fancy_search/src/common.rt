//! Trees that an engine may search for.

ghost use Rattle.std.specs.Prelude.{◌≡◌, [], ◌∷◌, IfOk, IfSome, option_map};
ghost use Rattle.fancy_meaning.specs.Tree.{Tree};
ghost use Rattle.fancy_hybrid.specs.Patterns.{IsEngineOf};
ghost use Rattle.fancy_search.specs.Copies.{IsCopyOf};

use fancy_compile::compile::CompileOptions;
use fancy_fragments::delegate::Delegate;
use fancy_hybrid::engine::Engine;
use fancy_hybrid::translate::Translator;
use fancy_info::info::Info;
use fancy_program::insn::Insn;
use std::alloc::{AllocError, Global};
use std::sync::Arc;

/// A tree that an engine may search for, as the delegate of its program has it.
pub struct Common {
    delegate: Arc<Delegate>,
    unicode: bool,
}

// Not derived: whoever owns one calls this drop, and would prove a derived one again (docs/GATE.md).
impl Drop for Common {
    fn drop(self) {
        let Common {
            delegate: _,
            unicode: _,
        } = self;
    }
}

impl Common {
    ghost use Rattle.fancy_search.specs.Copies.{trees_in};

    /// An engine for the tree, if the kit has a pattern that means the same.
    pub(crate) fn engine(&self, alloc: Global) -> Result<Option<Box<Engine>>, AllocError>
        ensures { (tree : Tree)
            → trees_in self.now ≡ tree ∷ []
            → IfOk result (λ made. IfSome made
            (λ engine. IsEngineOf self.now.unicode tree engine.value)) }
    {
        let translator = Translator {
            alloc,
            unicode: self.unicode,
        };
        let Some(expr) = self.delegate.fragment().exprs().first() else {
            return Ok(None);
        };
        let Some(it) = translator.node(1, expr)? else {
            return Ok(None);
        };
        let made = Engine::new(alloc, &it.hir, it.next)?;
        boxed(alloc, made)
    }
}

/// The engine in a box, since it is large and most scratches have none.
fn boxed(alloc: Global, engine: Option<Engine>) -> Result<Option<Box<Engine>>, AllocError>
    ensures { IfOk result (λ boxed. option_map (λ b. b.value) boxed ≡ engine) }
{
    match engine {
        Some(engine) => Ok(Some(Box::new(alloc, engine)?)),
        None => Ok(None),
    }
}

/// The tree, if its program is one delegate and its searches are for the first match at any start.
pub(crate) fn common_of(
    body: &[Insn],
    info: &Info<'_>,
    options: CompileOptions,
) -> Result<Option<Common>, AllocError>
    ensures { IfOk result (λ common. IfSome common (IsCopyOf info.now options)) }
{
    if info.hard()
        || info.explicit_capture_group_0()
        || options.anchored
        || options.disallow_empty_match_at_eof_after_newline
    {
        return Ok(None);
    }
    let Some(Insn::Delegate(delegate)) = body.get(4) else {
        return Ok(None);
    };
    if !delegate.fragment().is_of_expr(info.expr()) {
        return Ok(None);
    }
    Ok(Some(Common {
        delegate: Arc::try_clone(delegate)?,
        unicode: options.unicode,
    }))
}
