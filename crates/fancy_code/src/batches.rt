//! Batches: neighbouring easy nodes as one instruction.

ghost use Rattle.fancy_code.specs.Batches.{Collects, IsInsnOf, WritesBatch, WritesRepeater, easy_repeater};
ghost use Rattle.fancy_code.specs.Drafts.{draft_of};
ghost use Rattle.fancy_code.specs.Neighbours.{IsMadeOf};
ghost use Rattle.fancy_fragments.specs.Nodes.{AreEasyNeighbours};
ghost use Rattle.fancy_info.specs.Infos.{info_tree};
ghost use Rattle.fancy_meaning.specs.Batches.{all_joined, batch, batch_code, delegate_code, literal_chars, literal_instr};
ghost use Rattle.fancy_program.specs.Insns.{insn_of};
ghost use Rattle.std.specs.List.{list_any};
ghost use Rattle.std.specs.Prelude.{IfOk, None, [], map, ◌∷◌, ◌≡◌};

use crate::classes::SharedClasses;
use crate::delegates::SharedDelegates;
use crate::leaves::any_insn;
use crate::writer::CodeWriter;
use fancy_characters::classes::CaseiLiteral;
use fancy_expr::error::Error;
use fancy_expr::expr::Expr;
use fancy_expr::text::first_char;
use fancy_fragments::delegate::pattern_text;
use fancy_info::info::Info;
use fancy_program::insn::Insn;
use std::alloc::{AllocError, Global};

/// Puts the characters of the node's literals behind `chars`, each with whether it is folded, as far as the first part that is
/// another; and says whether there is such a part.
#[cycle(collect)]
fn collect_chars(info: &Info, chars: &mut Vec<(char, bool)>) -> Result<bool, AllocError>
    ensures { IfOk result (Collects (literal_chars (info_tree info.now))
        chars.old.items chars.new.items) }
{
    match info.expr() {
        Expr::Literal { val, casei } => {
            chars.push((first_char(val), *casei))?;
            Ok(false)
        }
        Expr::Concat(_) => collect_each(info.children(), chars),
        _ => Ok(true),
    }
}

/// The same of neighbours.
#[cycle(collect)]
fn collect_each(infos: &[Info], chars: &mut Vec<(char, bool)>) -> Result<bool, AllocError>
    ensures { IfOk result (Collects (all_joined (map literal_chars (map info_tree infos.now)))
        chars.old.items chars.new.items) }
{
    for info in infos {
        if collect_chars(info, chars)? {
            return Ok(true);
        }
    }
    Ok(false)
}

/// One of the characters is folded.
fn is_folded(chars: &[(char, bool)]) -> bool
    ensures { result ≡ list_any (λ c. c.1) chars.now }
{
    chars.iter().any(|c| c.1)
}

/// The instruction for these characters, each folded or not.
fn chars_insn(alloc: Global, chars: Vec<(char, bool)>, unicode: bool) -> Result<Insn, AllocError>
    ensures { IfOk result (λ i. insn_of i ≡ literal_instr unicode chars.items) }
{
    if is_folded(&chars) {
        return Ok(Insn::LitCasei(CaseiLiteral::new(chars, unicode)));
    }
    let mut text = String::new(alloc);
    for c in &chars {
        text.push(c.0)?;
    }
    Ok(Insn::Lit(text))
}

/// The delegate of nodes that have a text.
fn delegate_insn(
    delegates: &mut SharedDelegates,
    alloc: Global,
    infos: &[Info],
    unicode: bool,
) -> Result<Option<Insn>, Error>
    requires { AreEasyNeighbours infos.now }
    ensures { IsInsnOf unicode infos.now
        (delegate_code unicode (map info_tree infos.now)) result }
{
    let text = pattern_text(alloc, infos)?;
    if text.is_empty() {
        return Ok(None);
    }
    let delegate = delegates.get(alloc, infos, text, unicode)?;
    Ok(Some(Insn::Delegate(delegate)))
}

/// The instruction of nodes that are not all literal.
fn other_insn(
    classes: &mut SharedClasses,
    delegates: &mut SharedDelegates,
    alloc: Global,
    infos: &[Info],
    unicode: bool,
) -> Result<Option<Insn>, Error>
    requires { AreEasyNeighbours infos.now }
    ensures { IsInsnOf unicode infos.now
        (batch_code unicode None (map info_tree infos.now)) result }
{
    if infos.len() == 1 {
        match infos[0].expr() {
            Expr::Delegate { inner, casei } => {
                let class = classes.get(alloc, inner, *casei, unicode)?;
                return Ok(Some(Insn::CharClass(class)));
            }
            Expr::Any { newline, crlf } => return Ok(Some(any_insn(*newline, *crlf))),
            _ => {}
        }
    }
    delegate_insn(delegates, alloc, infos, unicode)
}

/// The instruction of neighbouring easy nodes; none where they need nothing.
fn batch_insn(
    classes: &mut SharedClasses,
    delegates: &mut SharedDelegates,
    alloc: Global,
    infos: &[Info],
    unicode: bool,
) -> Result<Option<Insn>, Error>
    requires { AreEasyNeighbours infos.now }
    ensures { IsInsnOf unicode infos.now (batch unicode (map info_tree infos.now)) result }
{
    if infos.is_empty() {
        return Ok(None);
    }
    let mut chars = Vec::new(alloc);
    if collect_each(infos, &mut chars)? {
        return other_insn(classes, delegates, alloc, infos, unicode);
    }
    Ok(Some(chars_insn(alloc, chars, unicode)?))
}

/// The instruction of an absent repeater of an easy node.
fn repeater_insn(
    delegates: &mut SharedDelegates,
    alloc: Global,
    body: &Info,
    unicode: bool,
) -> Result<Insn, Error>
    requires { AreEasyNeighbours (body.now ∷ []) }
    ensures { IsMadeOf unicode (body.now ∷ [])
        (λ i. insn_of i ≡ easy_repeater unicode (info_tree body.now)) result }
{
    let infos = std::slice::from_ref(body);
    let text = pattern_text(alloc, infos)?;
    let delegate = delegates.get(alloc, infos, text, unicode)?;
    Ok(Insn::AbsentRepeater(delegate))
}

impl CodeWriter {
    /// Neighbouring easy nodes: a literal, one class, one character, or a delegate; nothing where their text is empty.
    pub fn emit_batch(&mut self, alloc: Global, infos: &[Info], unicode: bool)
        requires { AreEasyNeighbours infos.now }
        ensures { WritesBatch unicode infos.now (draft_of self.old) (draft_of self.new) }
    {
        let insn = batch_insn(
            &mut self.classes,
            &mut self.delegates,
            alloc,
            infos,
            unicode,
        );
        match insn {
            Ok(Some(insn)) => self.push(insn),
            Ok(None) => {}
            Err(error) => self.fail(error),
        }
    }

    /// An absent repeater of an easy node.
    pub fn emit_repeater(&mut self, alloc: Global, body: &Info, unicode: bool)
        requires { AreEasyNeighbours (body.now ∷ []) }
        ensures { WritesRepeater unicode body.now (draft_of self.old) (draft_of self.new) }
    {
        match repeater_insn(&mut self.delegates, alloc, body, unicode) {
            Ok(insn) => self.push(insn),
            Err(error) => self.fail(error),
        }
    }
}
