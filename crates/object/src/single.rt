// Selectors of at most one entity.
ghost use Rattle.std.specs.Prelude.{◌≡◌, Option, Result};
ghost use Rattle.grid.specs.declared.entity.Entity.{Entity};
ghost use Rattle.grid.specs.declared.refusal.Refusal.{Refusal};
ghost use Rattle.grid.specs.declared.shape.Shape.{Shape};
ghost use Rattle.object.specs.Meanings.{entities, at_most_one, Bounded};
ghost use Rattle.object.specs.Laws.{lawful_at_most_one};

use crate::object::Object;
use grid::entity::Entity;
use grid::refusal::Refusal;
use grid::shape::Shape;
use std::iter::Once;

// It means, for each shape, a refusal, an entity or nothing. One entity has no position twice, so one law is left to show.
pub trait Single {
    ghost meant: { Self → Shape → Result (Option Entity) Refusal };

    fn entity(&self, shape: Shape) -> Result<Option<Entity>, Refusal>
        ensures { result ≡ meant self.now shape };

    // no number above 127
    ghost small: { (x : Self) (s : Shape) → Bounded (entities (at_most_one (meant x s))) };
}

impl<T: Single> Object for T {
    type Iter = Once<Entity>;

    ghost meaning = { λ x s. at_most_one (T.meant x s) };

    ghost bounded = { λ x s. (lawful_at_most_one s (T.meant x s) (T.small x s)).0 };

    ghost distinct = { λ x s. (lawful_at_most_one s (T.meant x s) (T.small x s)).1 };

    fn test(&self, shape: Shape) -> Result<(), Refusal> {
        self.entity(shape)?;
        Ok(())
    }

    fn cells(&self, shape: Shape) -> Once<Entity> {
        self.entity(shape).unwrap_or(None).into_iter()
    }
}
