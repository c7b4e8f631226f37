//! The pairs of a state and a place that have no way.

ghost use Rattle.std.specs.Prelude.{◌≡◌, ℕ, List, ◌||◌, ◌==◌, false, IsTrue, OnOk, OnErr, nat_eq};
ghost use Rattle.std.specs.HashMap as hash;
ghost use Rattle.fancy_backtrack.specs.PairKeys.{same_numbers};
ghost use Rattle.fancy_backtrack.specs.FailedPairs.{has_pair, number_is_set, word_of};
ghost use Rattle.fancy_backtrack.specs.Bytes.{failed_bytes, saturated};

use crate::pair_numbers::PairNumbers;
use std::alloc::{AllocError, Global};
use std::collections::{HashMap, HashSet};

/// How many times the entries that a search made their room may be, once it is over.
const SPARE: usize = 16;

/// How many bytes a word holds with its index.
const WORD_BYTES: usize = 16;

/// How many bytes a list holds beside its numbers, and each of its numbers.
const LIST_BYTES: usize = 24;

const NUMBER_BYTES: usize = 8;

/// Pairs that have no way: a bit of a hashed word for each that has a number, else a list of its numbers.
#[derive(Drop)]
pub(crate) struct Failed {
    /// Which number a pair has.
    numbers: PairNumbers,
    /// The place of the first numbers.
    base: usize,
    /// The pairs whose numbers are `64 * i` to `64 * i + 63`, as bits of the word at `i`.
    words: HashMap<usize, u64>,
    /// The state, the place, and of each loop around the count and whether it is to move and has not.
    lists: HashSet<Vec<usize>>,
    /// How many bytes the lists hold.
    list_bytes: usize,
    /// How many bytes it may hold.
    most: usize,
}

impl Failed {
    /// No pairs, in a search from `base` on.
    pub(crate) fn new(alloc: Global, numbers: PairNumbers, base: usize) -> Failed
        ensures { (k : List ℕ) → has_pair result k ≡ false }
    {
        Failed {
            numbers,
            base,
            words: HashMap::new(alloc),
            lists: HashSet::new(alloc),
            list_bytes: 0,
            most: usize::MAX,
        }
    }

    /// As `new` for another search, with the room of this one.
    pub(crate) fn clear(&mut self, numbers: PairNumbers, base: usize)
        ensures { (k : List ℕ) → has_pair self.new k ≡ false }
    {
        self.numbers = numbers;
        self.base = base;
        self.list_bytes = 0;
        if self.is_empty() {
            return;
        }
        let used = self.words.len();
        self.words.clear();
        self.words.shrink_to(used.saturating_mul(SPARE));
        let used = self.lists.len();
        self.lists.clear();
        self.lists.shrink_to(used.saturating_mul(SPARE));
    }

    /// It may hold so many bytes.
    pub(crate) fn limit(&mut self, bytes: usize)
        ensures { self.new ≡ record self.old { most = bytes } }
    {
        self.most = bytes;
    }

    /// No pair was added.
    #[inline(always)]
    pub(crate) fn is_empty(&self) -> bool
        ensures { IsTrue result → (k : List ℕ) → has_pair self.now k ≡ false }
    {
        self.words.is_empty() && self.lists.is_empty()
    }

    /// How many bytes the words and the lists hold.
    pub(crate) fn bytes(&self) -> usize
        ensures { result ≡ saturated (failed_bytes self.now) }
    {
        let words = self.words.len().saturating_mul(WORD_BYTES);
        words.saturating_add(self.list_bytes)
    }

    /// Whether a pair with these numbers is among them.
    pub(crate) fn has(&self, pair: &[usize]) -> bool
        ensures { result ≡ has_pair self.now pair.now }
    {
        match self.numbers.number(self.base, pair) {
            Some(number) => has_number(&self.words, number),
            None => self.lists.contains(pair),
        }
    }

    /// One more, unless it holds more bytes than it may.
    #[inline(never)]
    pub(crate) fn add(&mut self, alloc: Global, pair: &[usize]) -> Result<(), AllocError>
        ensures ok { OnOk result ((k : List ℕ) → has_pair self.new k
            ≡ (same_numbers k pair.now || has_pair self.old k)) }
        ensures err { OnErr result ((k : List ℕ) → has_pair self.new k ≡ has_pair self.old k) }
    {
        if self.bytes() > self.most {
            return Err(AllocError);
        }
        match self.numbers.number(self.base, pair) {
            Some(number) => set_number(&mut self.words, number),
            None => {
                let bytes = pair
                    .len()
                    .saturating_mul(NUMBER_BYTES)
                    .saturating_add(LIST_BYTES);
                let pair = Vec::from_slice(alloc, pair)?;
                self.lists.insert(pair)?;
                self.list_bytes = self.list_bytes.saturating_add(bytes);
                Ok(())
            }
        }
    }
}

/// The word at this index: without bits, where there is none.
fn word_at(words: &HashMap<usize, u64>, index: usize) -> u64
    ensures { result ≡ word_of (hash.get nat_eq words.now index) }
{
    match words.get(&index) {
        Some(word) => *word,
        None => 0,
    }
}

fn has_number(words: &HashMap<usize, u64>, number: usize) -> bool
    ensures { result ≡ number_is_set words.now number }
{
    word_at(words, number / 64) >> (number % 64) & 1 == 1
}

fn set_number(words: &mut HashMap<usize, u64>, number: usize) -> Result<(), AllocError>
    ensures ok { OnOk result ((n : ℕ) → number_is_set words.new n
        ≡ (n == number || number_is_set words.old n)) }
    ensures err { OnErr result (words.new.entries ≡ words.old.entries) }
{
    let index = number / 64;
    let word = word_at(words, index) | 1 << (number % 64);
    words.insert(index, word)?;
    Ok(())
}
