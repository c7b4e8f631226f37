//! Which number a pair has among all pairs of a search.

ghost use Rattle.std.specs.Prelude.{◌≡◌};
ghost use Rattle.fancy_backtrack.specs.PairNumbers.{counter_digit, counters_value, pair_value, shifted};

/// The most numbers of iterations that a pair may have, two of each: more have no number in 64 bits.
const MOST: usize = 128;

/// Which pairs have a number. A pair has one inside any number of loops, as long as the number fits 64 bits.
#[derive(Clone, Copy)]
pub struct PairNumbers {
    /// States below this one have numbers,
    states: usize,
    /// inside iterations before which fewer were begun than this,
    counts: usize,
    /// where the number of whether they have stayed is below this one.
    stays: usize,
    /// More than any digit, which is the number of one iteration.
    base: usize,
    /// How many numbers a state has at a place.
    width: usize,
    /// By how many places the numbers of an iteration are shifted against those of the next one.
    step: usize,
}

/// What the loops of a fragment that count ask for.
#[derive(Clone, Copy)]
pub struct Loops {
    /// How many different counts there are.
    pub counts: usize,
    /// How many numbers of whether an iteration has stayed.
    pub stays: usize,
    /// How many loops are around the state that has most of them.
    pub depth: usize,
    /// How many bytes an iteration takes, as far as is known.
    pub step: usize,
}

impl PairNumbers {
    /// Those of a fragment of so many states with these loops. Whatever is chosen here, no two pairs have one number.
    pub fn of(states: usize, loops: Loops) -> PairNumbers {
        let base = loops.counts.saturating_mul(loops.stays).saturating_add(1);
        let mut width: usize = 1;
        for _ in 0..loops.depth.min(MOST / 2) {
            width = width.saturating_mul(base);
        }
        PairNumbers {
            states,
            counts: loops.counts,
            stays: loops.stays,
            base,
            width,
            step: loops.step,
        }
    }

    /// The digit of an iteration, from 1 on.
    #[inline(always)]
    fn counter_digit(self, count: usize, stayed: usize) -> Option<usize>
        ensures { result ≡ counter_digit self count stayed }
    {
        if count >= self.counts || stayed >= self.stays {
            return None;
        }
        let digit = stayed
            .checked_mul(self.counts)?
            .checked_add(count)?
            .checked_add(1)?;
        if digit < self.base { Some(digit) } else { None }
    }

    /// The number that the iterations around have as digits, the innermost last. Each has two numbers.
    fn counters_value(self, counters: &[usize]) -> Option<usize>
        ensures { result ≡ counters_value self counters.now }
    {
        match counters {
            [] => Some(0),
            [count, stayed, around @ ..] => {
                let digit = self.counter_digit(*count, *stayed)?;
                let around = self.counters_value(around)?;
                around.checked_mul(self.base)?.checked_add(digit)
            }
            _ => None,
        }
    }

    /// As `counters_value`, of one iteration without a detour.
    #[inline(always)]
    fn around_value(self, counters: &[usize]) -> Option<usize>
        ensures { result ≡ counters_value self counters.now }
    {
        match counters {
            [count, stayed] => self.counter_digit(*count, *stayed),
            _ => self.counters_value(counters),
        }
    }

    /// The place at which a pair is numbered. Where each iteration of the innermost loop takes `step` bytes, it is the
    /// same for all of them, so that their numbers follow one another.
    #[inline(always)]
    fn shifted(self, place: usize, counters: &[usize]) -> Option<usize>
        ensures { result ≡ shifted self place counters.now }
    {
        match counters {
            [] => Some(place),
            [count, ..] => self
                .counts
                .saturating_sub(*count)
                .checked_mul(self.step)?
                .checked_add(place),
        }
    }

    /// The number of a pair, where those of the place `base` are the first ones.
    #[inline(always)]
    pub(crate) fn number(self, base: usize, pair: &[usize]) -> Option<usize>
        ensures { result ≡ pair_value self base pair.now }
    {
        let [at, place, counters @ ..] = pair else {
            return None;
        };
        if counters.len() > MOST || *at >= self.states {
            return None;
        }
        let around = self.around_value(counters)?;
        if around >= self.width {
            return None;
        }
        self.shifted(place.checked_sub(base)?, counters)?
            .checked_mul(self.states)?
            .checked_add(*at)?
            .checked_mul(self.width)?
            .checked_add(around)
    }
}
