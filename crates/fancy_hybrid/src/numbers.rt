//! The numbers of a match, as searches return them.

ghost use Rattle.std.specs.Prelude.{◌≡◌, ◌∷◌, [], length, OnOk};
ghost use Rattle.fancy_meaning.specs.Answer.{span_numbers};
ghost use Rattle.fancy_agreement.specs.Captures.{pair};
ghost use Rattle.fancy_hybrid.specs.Cells.{cell_numbers, position};

use std::alloc::AllocError;

/// The start and the end of a group by its cells, each a position plus one, or 0 if it is not set: `usize::MAX` then.
fn span_of(start: usize, end: usize) -> (usize, usize)
    ensures { result.0 ∷ result.1 ∷ [] ≡ span_numbers (pair (position start) (position end)) }
{
    if start == 0 || end == 0 {
        return (usize::MAX, usize::MAX);
    }
    (start - 1, end - 1)
}

/// Writes the numbers of a match over these: its span, and start and end of each group from 1 up by its cells.
pub(crate) fn write_numbers(
    from: usize,
    end: usize,
    cells: &[usize],
    numbers: &mut Vec<usize>,
) -> Result<(), AllocError>
    ensures { OnOk result (numbers.new.items ≡ from ∷ end ∷ cell_numbers cells.now) }
{
    numbers.clear();
    numbers.push(from)?;
    numbers.push(end)?;
    'groups: for group in 0..cells.len() / 2 {
        let (start, stop) = span_of(cells[2 * group], cells[2 * group + 1]);
        numbers.push(start)?;
        numbers.push(stop)?;
    }
    Ok(())
}
