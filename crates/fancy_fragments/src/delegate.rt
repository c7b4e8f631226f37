//! What an instruction holds of a fragment: the pattern text that names it, and the numbers of its groups.

ghost use Rattle.std.specs.Prelude.{◌≡◌, ◌==◌, Bool, None, Some, IfOk, IfErr, if◌then◌else◌, map, string_bytes};
ghost use Rattle.fancy_meaning.specs.Batches.{fragment, group_range, pattern_of};
ghost use Rattle.fancy_meaning.specs.Instr as plain;
ghost use Rattle.fancy_info.specs.Infos.{info_tree};
ghost use Rattle.fancy_nfa.specs.Searches.{IsMemory};
ghost use Rattle.fancy_nfa.specs.Nfas.{HaveClasses, IsRefusedFor};
ghost use Rattle.fancy_fragments.specs.Delegates.{delegate_instr, range_of};
ghost use Rattle.fancy_fragments.specs.Fragments.{fragment_of};
ghost use Rattle.fancy_fragments.specs.Nodes.{AreEasyNeighbours};

use crate::fragment::Fragment;
use fancy_expr::error::Error;
use fancy_info::info::Info;
use std::alloc::Global;

/// The numbers of neighbouring groups: the first one, and the one behind the last.
#[derive(Clone, Copy, Debug, PartialEq, Eq)]
pub struct CaptureGroupRange(pub usize, pub usize);

impl CaptureGroupRange {
    /// The number of the first group.
    pub fn start(&self) -> usize
        ensures { result ≡ self.now.0 }
    {
        self.0
    }

    /// The number behind that of the last group.
    pub fn end(&self) -> usize
        ensures { result ≡ self.now.1 }
    {
        self.1
    }

    /// The range, where it has a group: none where both numbers are equal.
    pub fn to_option_if_non_empty(self) -> Option<CaptureGroupRange>
        ensures { result ≡ (if self.0 == self.1 then None else Some self) }
    {
        if self.0 == self.1 { None } else { Some(self) }
    }
}

/// A fragment with its name and its groups.
#[derive(Debug)]
pub struct Delegate {
    pub(crate) pattern: String,
    pub(crate) fragment: Fragment,
    pub(crate) capture_groups: Option<CaptureGroupRange>,
}

// Not derived: whoever owns one calls this drop, and would prove a derived one again (docs/GATE.md).
impl Drop for Delegate {
    fn drop(self) {
        let Delegate {
            pattern: _,
            fragment: _,
            capture_groups: _,
        } = self;
    }
}

impl Delegate {
    /// It keeps exactly what it is handed, and takes no memory.
    pub fn new(
        pattern: String,
        fragment: Fragment,
        capture_groups: Option<CaptureGroupRange>,
    ) -> Delegate
        ensures kept { result ≡ record {
          pattern = pattern;
          fragment = fragment;
          capture_groups = capture_groups;
        } }
        ensures instr { delegate_instr result ≡ plain.Instr.Delegate (string_bytes pattern)
            (fragment_of fragment) (range_of capture_groups) }
    {
        Delegate {
            pattern,
            fragment,
            capture_groups,
        }
    }

    /// The delegate of neighbouring nodes of one analysed tree, none of them hard.
    ///
    /// A class text that `regex` excludes is refused as `InnerError` or `ClassTooBig`, but not in a loop that is never
    /// entered or in a DEFINE, which are not written out. Out of memory is `Error::Memory`.
    pub fn build(alloc: Global, infos: &[Info], unicode: bool) -> Result<Delegate, Error>
        requires { AreEasyNeighbours infos.now }
        ensures delegate { IfOk result (λ d. delegate_instr d
            ≡ plain.Instr.Delegate (pattern_of unicode (map info_tree infos.now))
            (fragment unicode (map info_tree infos.now))
            (group_range (map info_tree infos.now))) }
        ensures classes { IfOk result (λ f. HaveClasses unicode infos.now) }
        ensures refused { IfErr result (IsRefusedFor unicode infos.now) }
    {
        let pattern = pattern_text(alloc, infos)?;
        Delegate::named(alloc, pattern, infos, unicode)
    }

    /// As `build`, under this name.
    pub fn named(
        alloc: Global,
        pattern: String,
        infos: &[Info],
        unicode: bool,
    ) -> Result<Delegate, Error>
        requires { AreEasyNeighbours infos.now }
        ensures delegate { IfOk result (λ d. delegate_instr d
            ≡ plain.Instr.Delegate (string_bytes pattern)
            (fragment unicode (map info_tree infos.now))
            (group_range (map info_tree infos.now))) }
        ensures classes { IfOk result (λ f. HaveClasses unicode infos.now) }
        ensures refused { IfErr result (IsRefusedFor unicode infos.now) }
    {
        let fragment = Fragment::build(alloc, infos, unicode)?;
        Ok(Delegate::new(pattern, fragment, group_range(infos)))
    }

    /// The pattern text that names it; it is never matched.
    pub fn pattern(&self) -> &str
        ensures { result.now ≡ string_bytes self.now.pattern }
    {
        self.pattern.as_str()
    }

    /// What is searched for.
    pub fn fragment(&self) -> &Fragment
        ensures { result.now ≡ self.now.fragment }
    {
        &self.fragment
    }

    /// The numbers of its groups, if it has any.
    pub fn capture_groups(&self) -> Option<CaptureGroupRange>
        ensures { result ≡ self.now.capture_groups }
    {
        self.capture_groups
    }
}

/// The pattern text of neighbouring nodes, one behind the other, in UTF-8. `Memory` where a request for memory was
/// refused.
pub fn pattern_text(alloc: Global, infos: &[Info]) -> Result<String, Error>
    requires { AreEasyNeighbours infos.now }
    ensures text { IfOk result (λ text. (unicode : Bool)
        → string_bytes text ≡ pattern_of unicode (map info_tree infos.now)) }
    ensures refused { IfErr result IsMemory }
{
    let mut text = String::new(alloc);
    for info in infos {
        let part = info.expr().to_str(alloc, 1)?;
        if text.is_empty() {
            text = part;
        } else {
            text.push_str(&part)?;
        }
    }
    Ok(text)
}

/// The numbers of the groups of neighbouring nodes, if they have any.
fn group_range(infos: &[Info]) -> Option<CaptureGroupRange>
    requires { AreEasyNeighbours infos.now }
    ensures { range_of result ≡ group_range (map info_tree infos.now) }
{
    match (infos.first(), infos.last()) {
        (Some(first), Some(last)) => {
            CaptureGroupRange(first.start_group(), last.end_group()).to_option_if_non_empty()
        }
        _ => None,
    }
}
