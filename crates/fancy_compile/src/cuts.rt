//! Where a concatenation is cut: its first and its last children may be batches.

ghost use Rattle.fancy_info.specs.Infos.{info_size};
ghost use Rattle.fancy_compile.specs.AnalysedNodes.{back_of, back_start, front_count, front_of, is_back, is_front, middle_of};
ghost use Rattle.std.specs.List.{list_all};
ghost use Rattle.std.specs.Prelude.{◌&&◌, ◌==◌, ◌≡◌};

use fancy_info::info::Info;

fn take_nothing(infos: &[Info]) -> bool
    ensures { result ≡ list_all (λ i. (info_size i).most == 0) infos.now }
{
    infos.iter().all(|info| info.max_size() == 0)
}

/// A match may still begin behind the nodes: it may begin with them, and they take nothing.
pub fn is_first_behind(is_first: bool, infos: &[Info]) -> bool
    ensures { result ≡ (is_first && list_all (λ i. (info_size i).most == 0) infos.now) }
{
    is_first && take_nothing(infos)
}

/// The node may be in the first batch.
fn is_front(info: &Info) -> bool
    ensures { result ≡ is_front info.now }
{
    !info.hard() && info.const_size()
}

/// The node may be in the last batch.
fn is_back(info: &Info, in_hard: bool) -> bool
    ensures { result ≡ is_back in_hard info.now }
{
    !info.hard() && (!in_hard || info.const_size())
}

/// How many first nodes are the first batch.
fn front_count(infos: &[Info]) -> usize
    ensures { result ≡ front_count infos.now }
{
    let mut count = 0;
    while count < infos.len() && is_front(&infos[count]) {
        count += 1;
    }
    count
}

/// Where the last nodes begin that are the last batch.
fn back_start(infos: &[Info], in_hard: bool) -> usize
    ensures { result ≡ back_start in_hard infos.now }
{
    let mut start = infos.len();
    while start > 0 && is_back(&infos[start - 1], in_hard) {
        start -= 1;
    }
    start
}

/// The first batch, the nodes between, and the last batch: as many easy nodes of constant size as stand first, and as many easy ones as
/// stand last, which in a hard context are of constant size too.
pub fn in_three<'s, 'a>(
    infos: &'s [Info<'a>],
    in_hard: bool,
) -> (&'s [Info<'a>], &'s [Info<'a>], &'s [Info<'a>])
    ensures front { result.0.now ≡ front_of infos.now }
    ensures middle { result.1.now ≡ middle_of in_hard infos.now }
    ensures back { result.2.now ≡ back_of in_hard infos.now }
{
    let (front, rest) = infos.split_at(front_count(infos));
    let (middle, back) = rest.split_at(back_start(rest, in_hard));
    (front, middle, back)
}
