//! `Size`, how many characters a node takes: the least, the greatest, whether always as many; and how sizes join.

ghost use Rattle.std.specs.Prelude.{◌≡◌, false};
ghost use Rattle.fancy_meaning.specs.Sizes.{between, either, exactly, plus, times, unknown};
ghost use Rattle.fancy_meaning.specs.Numbers.{usize_max};
ghost use Rattle.fancy_info.specs.Sized.{size_of};
ghost use Rattle.fancy_expr.specs.Views.{bound_of};

/// The least and the greatest number of characters, and whether it is one number.
#[derive(Clone, Copy, Debug, PartialEq, Eq)]
pub struct Size {
    pub least: usize,
    pub most: usize,
    pub is_const: bool,
}

impl Size {
    /// Of what takes exactly so many.
    pub fn exactly(n: usize) -> Size
        ensures { size_of result ≡ exactly n }
    {
        Size {
            least: n,
            most: n,
            is_const: true,
        }
    }

    /// Of what takes so many at least and so many at most.
    pub fn between(least: usize, most: usize) -> Size
        ensures { size_of result ≡ between least most }
    {
        Size {
            least,
            most,
            is_const: false,
        }
    }

    /// Of what nothing is known of.
    pub fn unknown() -> Size
        ensures { size_of result ≡ unknown }
    {
        Size::between(0, usize::MAX)
    }

    /// The same, where different ways may take different numbers.
    pub fn varying(self) -> Size
        ensures { size_of result ≡ record (size_of self) { is_const = false } }
    {
        Size::between(self.least, self.most)
    }

    /// One after the other.
    pub fn plus(self, other: Size) -> Size
        ensures { size_of result ≡ plus (size_of self) (size_of other) }
    {
        Size {
            least: self.least.saturating_add(other.least),
            most: self.most.saturating_add(other.most),
            is_const: self.is_const && other.is_const,
        }
    }

    /// One or the other.
    pub fn either(self, other: Size) -> Size
        ensures { size_of result ≡ either (size_of self) (size_of other) }
    {
        Size {
            least: self.least.min(other.least),
            most: self.most.max(other.most),
            is_const: self.is_const && other.is_const && self.least == other.least,
        }
    }

    /// A loop's size; the largest number is no bound.
    pub fn times(self, lo: usize, hi: usize) -> Size
        ensures { size_of result ≡ times lo (bound_of hi) (size_of self) }
    {
        Size {
            least: self.least.saturating_mul(lo),
            most: if self.most == usize::MAX || hi == usize::MAX {
                usize::MAX
            } else {
                self.most.saturating_mul(hi)
            },
            is_const: self.is_const && lo == hi && hi != usize::MAX,
        }
    }
}
