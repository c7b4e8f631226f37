//! A node's children, and in which context its body stands.

ghost use Rattle.fancy_info.specs.Infos.{info_children, info_facts, info_hard};
ghost use Rattle.std.specs.Prelude.{length, not, slice_index_or, ◌&&◌, ◌||◌, ◌<◌, ◌≡◌};

use fancy_info::info::Info;

/// A node's child with this index.
pub fn child<'i, 'a>(info: &'i Info<'a>, i: usize) -> &'i Info<'a>
    requires { i < length (info_children info.now) }
    ensures { result.now ≡ slice_index_or (info_children info.now) i result.now }
{
    &info.children()[i]
}

/// An easy node in an easy context.
pub fn is_batch(info: &Info, in_hard: bool) -> bool
    ensures { result ≡ (not (info_hard info.now) && not in_hard) }
{
    !info.hard() && !in_hard
}

/// The body of a group is in a hard context where the group is in one, or is read.
pub fn is_body_hard(info: &Info, in_hard: bool) -> bool
    ensures { result ≡ (in_hard || (info_facts info.now).is_read) }
{
    in_hard || info.is_read()
}
