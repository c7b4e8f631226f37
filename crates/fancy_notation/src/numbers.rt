//! The numbers that words write.

ghost use Rattle.std.specs.Prelude.{◌≡◌, None};
ghost use Rattle.fancy_notation.specs.Words.{number_of};

/// The number that one or more decimal digits write, where it fits.
pub fn number(word: &str) -> Option<usize>
    ensures { result ≡ number_of word.now }
{
    if word.starts_with('+') {
        return None;
    }
    word.parse::<usize>().ok()
}
