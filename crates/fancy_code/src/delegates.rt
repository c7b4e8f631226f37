//! Delegates: equal ones are built once.

ghost use Rattle.std.specs.List.{slice_get};
ghost use Rattle.std.specs.Prelude.{◌≡◌, IfErr, IfSome, map, option_map, string_bytes};
ghost use Rattle.fancy_meaning.specs.Batches.{pattern_of};
ghost use Rattle.fancy_info.specs.Infos.{info_facts, info_tree};
ghost use Rattle.fancy_nfa.specs.Searches.{IsMemory};
ghost use Rattle.fancy_fragments.specs.Delegates.{delegate_instr};
ghost use Rattle.fancy_fragments.specs.Nodes.{AreEasyNeighbours};
ghost use Rattle.fancy_code.specs.Neighbours.{IsMadeOf};
ghost use Rattle.fancy_code.specs.SharedDelegates.{AreNamedAlike, IsDelegateOf, delegate_of};

use fancy_expr::error::Error;
use fancy_fragments::delegate::Delegate;
use fancy_info::info::Info;
use std::alloc::Global;
use std::collections::BTreeMap;
use std::sync::Arc;

/// What equal delegates have alike: the pattern text, and the number at which their groups begin.
type Key = (String, Option<usize>);

/// The delegates of a program, each built once.
#[derive(Drop)]
pub struct SharedDelegates {
    delegates: Vec<Arc<Delegate>>,
    /// The number at which the groups of the last one begin.
    last_number: Option<usize>,
    /// Where those of this key stand among them, but for the last one.
    places: BTreeMap<Key, Vec<usize>>,
    ghost known: { AreNamedAlike delegates.items },
}

/// The number at which the groups of neighbours begin.
fn first_number(infos: &[Info]) -> Option<usize>
    ensures { result
        ≡ option_map (λ i. (info_facts i).start_group) (slice_get infos.now 0) }
{
    match infos.first() {
        Some(info) => Some(info.start_group()),
        None => None,
    }
}

/// One more place of this key.
fn add_place(
    places: &mut BTreeMap<Key, Vec<usize>>,
    alloc: Global,
    key: Key,
    place: usize,
) -> Result<(), Error>
    ensures { IfErr result IsMemory }
{
    match places.get_mut(&key) {
        Some(others) => {
            others.push(place)?;
            return Ok(());
        }
        None => {}
    }
    let mut first = Vec::with_capacity(alloc, 1)?;
    first.push(place)?;
    places.insert(key, first)?;
    Ok(())
}

impl SharedDelegates {
    /// None yet.
    pub fn new(alloc: Global) -> SharedDelegates {
        SharedDelegates {
            delegates: Vec::new(alloc),
            last_number: None,
            places: BTreeMap::new(alloc),
        }
    }

    /// The last delegate, if it is that of these nodes.
    fn find_last(&self, infos: &[Info], unicode: bool) -> Option<&Arc<Delegate>>
        requires { AreEasyNeighbours infos.now }
        ensures { IfSome result (λ d. IsDelegateOf unicode infos.now
            (delegate_instr d.now.value)) }
    {
        let delegate = self.delegates.last()?;
        let is_same = delegate.fragment().is_of(infos, unicode);
        if is_same { Some(delegate) } else { None }
    }

    /// The delegate of these nodes, if it was built before the last one.
    fn find(&self, infos: &[Info], key: &Key, unicode: bool) -> Option<&Arc<Delegate>>
        requires { AreEasyNeighbours infos.now }
        ensures { IfSome result (λ d. IsDelegateOf unicode infos.now
            (delegate_instr d.now.value)) }
    {
        for place in self.places.get(key)? {
            let delegate = self.delegates.get(*place)?;
            if delegate.fragment().is_of(infos, unicode) {
                return Some(delegate);
            }
        }
        None
    }

    /// Notes where the last delegate stands, before another comes behind it.
    fn note_last(&mut self, alloc: Global) -> Result<(), Error>
        ensures same { self.new.delegates ≡ self.old.delegates }
        ensures refused { IfErr result IsMemory }
    {
        let Some(last) = self.delegates.last() else {
            return Ok(());
        };
        let key = (String::from_str(alloc, last.pattern())?, self.last_number);
        add_place(&mut self.places, alloc, key, self.delegates.len() - 1)
    }

    /// The delegate of easy neighbours with this pattern text, built where it is not there yet, or why there is none.
    pub(crate) fn get(
        &mut self,
        alloc: Global,
        infos: &[Info],
        text: String,
        unicode: bool,
    ) -> Result<Arc<Delegate>, Error>
        requires easy { AreEasyNeighbours infos.now }
        requires text { string_bytes text ≡ pattern_of unicode (map info_tree infos.now) }
        ensures { IsMadeOf unicode infos.now
            (λ d. delegate_instr d.value ≡ delegate_of unicode (map info_tree infos.now)) result }
    {
        match self.find_last(infos, unicode) {
            Some(delegate) => return Ok(Arc::clone(delegate)?),
            None => {}
        }
        let key = (text, first_number(infos));
        match self.find(infos, &key, unicode) {
            Some(delegate) => return Ok(Arc::clone(delegate)?),
            None => {}
        }
        let (text, number) = key;
        let delegate = Delegate::named(alloc, text, infos, unicode)?;
        let shared = Arc::new(alloc, delegate)?;
        self.note_last(alloc)?;
        self.last_number = number;
        self.delegates.push(Arc::clone(&shared)?)?;
        Ok(shared)
    }
}
