//! From an analysed tree to a program.

ghost use Rattle.std.specs.Prelude.{◌≡◌, ◌≤◌, ◌^◌, ◌*◌, ◌∷◌, [], ◌+◌, None, if◌then◌else◌, true, false};
ghost use Rattle.fancy_meaning.specs.Layout.{edge_code, end_text_code, program_code, search_code};
ghost use Rattle.fancy_meaning.specs.Options.{Plan};
ghost use Rattle.fancy_meaning.specs.Options as plain;
ghost use Rattle.fancy_meaning.specs.Nodes.{group_count};
ghost use Rattle.fancy_meaning.specs.Premises.{Analysed, analysis};
ghost use Rattle.fancy_compile.specs.Compiled.{Compiles, IsWritingOf, MayCompile, mode_of, plan_with};
ghost use Rattle.fancy_code.specs.Drafts.{Writes, draft_of, is_easy};
ghost use Rattle.fancy_compile.specs.Nodes.{IsScope, IsScopeOf};
ghost use Rattle.fancy_info.specs.Infos.{IsRoot};
ghost use Rattle.fancy_code.specs.Sites.{Site, top};

use crate::below::{NodeKind, has_kind};
use crate::group_table::GroupTable;
pub use crate::options::{BytesMode, CompileOptions};
use crate::scope::Scope;
use fancy_code::writer::CodeWriter;
use fancy_expr::error::{CompileError, Error};
use fancy_info::info::Info;
use fancy_program::insn::{Insn, Prog, ProgParts};
use std::alloc::Global;

/// Few everyday patterns take more instructions; for so many there is room from the start.
const USUAL_LENGTH: usize = 16;

fn is_unicode(mode: BytesMode) -> bool
    ensures yes { result ≡ true → mode_of mode ≡ plain.Unicode }
    ensures no { result ≡ false → ¬ (mode_of mode ≡ plain.Unicode) }
{
    match mode {
        BytesMode::Ascii => false,
        BytesMode::Unicode => true,
        BytesMode::UnicodeBytes => false,
    }
}

/// How many groups there are.
fn total_groups(info: &Info) -> usize
    requires { (a : Analysed) × IsRoot (analysis a) info.now }
    ensures value { (a : Analysed)
        → IsRoot (analysis a) info.now
        → result ≡ group_count (analysis a).tree }
    ensures small { result ≤ 1_000_000 }
{
    info.end_group() - info.start_group()
}

/// The number of the first group.
fn first_number(explicit_group_0: bool) -> usize
    ensures { result ≡ (if explicit_group_0 then 0 else 1) }
{
    if explicit_group_0 { 0 } else { 1 }
}

/// The first slot that is no group's, nor that of the text-end flag.
fn first_fresh(total_groups: usize, explicit_group_0: bool, end_text: bool) -> usize
    requires { total_groups ≤ 1_000_000 }
    ensures value { result
        ≡ 2 * (if explicit_group_0 then total_groups else total_groups + 1)
        + (if end_text then 1 else 0) }
    ensures small { result ≤ 2 ^ 62 }
{
    let numbers = total_groups + if explicit_group_0 { 0 } else { 1 };
    2 * numbers + if end_text { 1 } else { 0 }
}

/// The search for a start.
fn emit_search(writer: &mut CodeWriter, anchored: bool)
    ensures { (p : Site)
        → p.anchored ≡ anchored
        → Writes p (search_code p.plan) [] (draft_of writer.old) (draft_of writer.new) }
{
    if anchored {
        return;
    }
    writer.push(Insn::SplitUnanchored(3, 1));
    writer.push(Insn::Any);
    writer.push(Insn::Jmp(0));
}

/// An end of the match, where no group of the tree keeps it.
fn emit_edge(writer: &mut CodeWriter, explicit_group_0: bool, slot: usize)
    ensures { (p : Site)
        → (p.analysis.options).explicit_capture_group_0 ≡ explicit_group_0
        → Writes p (edge_code p.plan slot) [] (draft_of writer.old) (draft_of writer.new) }
{
    if !explicit_group_0 {
        writer.push(Insn::Save(slot));
    }
}

fn emit_end_text(writer: &mut CodeWriter, end_text: bool)
    ensures { (p : Site)
        → p.end_text ≡ end_text
        → Writes p (end_text_code p.plan) [] (draft_of writer.old) (draft_of writer.new) }
{
    if end_text {
        writer.push(Insn::RejectEmptyMatchAtEOFFollowingNewline);
    }
}

impl<'t, 'i, 'a, 'o> Scope<'t, 'i, 'a, 'o> {
    /// The whole program.
    fn emit_program(&self, writer: &mut CodeWriter, anchored: bool, end_text: bool)
        requires whole { IsScope self.now }
        requires begins { self.now.calls ≡ None }
        ensures { (p : Plan)
            → p.unicode ≡ self.now.unicode
            → p.anchored ≡ anchored
            → p.end_text ≡ end_text
            → IsScopeOf p.analysis self.now
            → Writes (top p self.now.room) (program_code p (is_easy p.analysis)) (p.analysis.tree ∷ [])
            (draft_of writer.old) (draft_of writer.new) }
    {
        let explicit = self.root.explicit_capture_group_0();
        emit_search(writer, anchored);
        emit_edge(writer, explicit, 0);
        self.emit(writer, self.root, true, false);
        emit_edge(writer, explicit, 1);
        emit_end_text(writer, end_text);
        writer.push(Insn::End);
    }
}

/// The program with its instructions, where there was no fault.
fn finish(writer: CodeWriter, info: &Info, options: CompileOptions) -> Result<Prog, Error>
    requires { (a : Analysed)
        × MayCompile a info.now options
        × ((plan_with a options).bytes_mode ≡ plain.Unicode)
        × IsWritingOf (plan_with a options) options.max_nesting (draft_of writer) }
    ensures { (a : Analysed)
        → MayCompile a info.now options
        → (plan_with a options).bytes_mode ≡ plain.Unicode
        → IsWritingOf (plan_with a options) options.max_nesting (draft_of writer)
        → Compiles (plan_with a options) options.max_nesting result }
{
    let CodeWriter {
        code,
        fresh: slots,
        fault,
        ..
    } = writer;
    match fault {
        Some(error) => return Err(error),
        None => {}
    }
    let parts = ProgParts {
        max_size: info.max_size(),
        total_groups: total_groups(info),
        slots: slots.max(2),
        explicit_group_0: info.explicit_capture_group_0(),
        find_not_empty: info.find_not_empty(),
        leftmost_longest: info.leftmost_longest(),
        keeps_start: has_kind(NodeKind::KeepOutNode, info),
        end_text: options.disallow_empty_match_at_eof_after_newline,
        unicode: options.unicode,
    };
    Ok(Prog::new(code, parts))
}

/// The program of an analysed tree, by the layout of "docs/LAYOUT.md": easy nodes are left to plain searches where their context lets them be.
///
/// `info` is the root that `analyze` answered, and the end-of-text option is set only where the analysis knew of it. What is written out is
/// refused as `Error::CompileError`: as `FeatureNotYetSupported` an existence condition with a recursion level, a control verb but `Fail`, an
/// absent part but a repeater, and one in the hard body of a repeater; as `VariableLookBehindRequiresFeature` a look-behind of no constant
/// size; as `SubroutineCallTargetNotFound` a call of a group that is not there; as `InnerError` or `ClassTooBig` a class text that `regex`
/// refuses. `FeatureNotYetSupported` is also any bytes mode but `Unicode`, and `PatternTooComplex` an instruction more than `max_prog_size`.
/// More nodes in one another than `max_nesting` are `Error::NestLimitExceeded`: the parts of a node that are written out are in it, and what
/// a call names is in the call, as long as fewer than 19 calls of the group are open. Out of memory is `Error::Memory`.
pub fn compile(alloc: Global, info: &Info, options: CompileOptions) -> Result<Prog, Error>
    requires { (a : Analysed) × MayCompile a info.now options }
    ensures { (a : Analysed)
        → MayCompile a info.now options
        → Compiles (plan_with a options) options.max_nesting result }
{
    if !is_unicode(options.bytes_mode) {
        return Err(Error::CompileError(CompileError::FeatureNotYetSupported));
    }
    let explicit_group_0 = info.explicit_capture_group_0();
    let end_text = options.disallow_empty_match_at_eof_after_newline;
    let groups = GroupTable::of(alloc, info, first_number(explicit_group_0))?;
    let scope = Scope {
        alloc,
        unicode: options.unicode,
        root: info,
        groups: &groups,
        calls: None,
        room: options.max_nesting,
    };
    let fresh = first_fresh(total_groups(info), explicit_group_0, end_text);
    let mut writer = CodeWriter::new(alloc, fresh, options.max_prog_size);
    writer.code.reserve(USUAL_LENGTH)?;
    scope.emit_program(&mut writer, options.anchored, end_text);
    finish(writer, info, options)
}
