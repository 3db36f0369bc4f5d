// Selectors.
ghost use Rattle.std.specs.Prelude.{◌≡◌};
ghost use Rattle.grid.specs.declared.shape.Shape.{Shape};
ghost use Rattle.object.specs.Meanings.{Meaning, entities, verdict, positions, Bounded, Distinct};

use crate::cursor::Cursor;
use grid::refusal::Refusal;
use grid::shape::Shape;

// It means, for each shape, a refusal or a list of entities. Each implementation shows two laws of that list.
pub trait Object {
    type Iter: Cursor;

    ghost meaning: { Self → Shape → Meaning };

    // Whether the shape is refused.
    fn test(&self, shape: Shape) -> Result<(), Refusal>
        ensures { result ≡ verdict (meaning self.now shape) };

    // A cursor over the entities; it is at its end where the shape is refused.
    fn cells(&self, shape: Shape) -> Self::Iter
        ensures { Self.Iter.to_come result ≡ entities (meaning self.now shape) };

    // no number above 127
    ghost bounded: { (x : Self) (s : Shape) → Bounded (entities (meaning x s)) };

    // no position twice
    ghost distinct: { (x : Self) (s : Shape) → Distinct (positions s (entities (meaning x s))) };
}
