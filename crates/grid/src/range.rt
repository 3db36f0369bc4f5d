// Ranges of rows and columns, given by a start and an end.
ghost use Rattle.std.specs.Prelude.{◌≡◌};
ghost use Rattle.grid.specs.Ranges.{resolved};

use crate::refusal::Refusal;
use crate::shape::MAX_COUNT;
use std::ops::Bound;

// The range's first number and the one after its last; an open end is the count.
pub fn bounds_to_usize(
    start: Bound<usize>,
    end: Bound<usize>,
    count: usize,
) -> Result<(usize, usize), Refusal>
    ensures { result ≡ resolved start end count }
{
    match (start, end) {
        (Bound::Excluded(_), _) => Err(Refusal::StartExcluded),
        (Bound::Included(x), _) if x > MAX_COUNT => Err(Refusal::OutOfRange),
        (Bound::Included(x), Bound::Included(y)) if y < MAX_COUNT => Ok((x, y + 1)),
        (Bound::Included(x), Bound::Excluded(y)) if y <= MAX_COUNT => Ok((x, y)),
        (Bound::Included(x), Bound::Unbounded) if count <= MAX_COUNT => Ok((x, count)),
        (Bound::Unbounded, Bound::Included(y)) if y < MAX_COUNT => Ok((0, y + 1)),
        (Bound::Unbounded, Bound::Excluded(y)) if y <= MAX_COUNT => Ok((0, y)),
        (Bound::Unbounded, Bound::Unbounded) if count <= MAX_COUNT => Ok((0, count)),
        _ => Err(Refusal::OutOfRange),
    }
}
