// The selector of all cells.
ghost use Rattle.std.specs.Prelude.{refl};
ghost use Rattle.single.specs.Singles.{all_meant};

use grid::entity::Entity;
use grid::refusal::Refusal;
use grid::shape::Shape;
use object::single::Single;

#[derive(Clone, Copy, Debug, PartialEq, Eq)]
pub struct SegmentAll;

impl Single for SegmentAll {
    ghost meant = { λ _ _. all_meant };

    ghost small = { λ _ _. (refl, tt) };

    fn entity(&self, _shape: Shape) -> Result<Option<Entity>, Refusal> {
        Ok(Some(Entity::Global))
    }
}
