// The positions that any selector picks, as a set.
ghost use Rattle.std.specs.Prelude.{◌≡◌, ℕ, ◌||◌};
ghost use Rattle.grid.specs.Positions.{positions_of, member};
ghost use Rattle.grid.specs.Sets.{has};
ghost use Rattle.object.specs.Meanings.{positions};
ghost use Rattle.object.specs.Selections.{Selects};

use crate::cursor::Cursor;
use crate::object::Object;
use grid::entity::Entity;
use grid::refusal::Refusal;
use grid::set::PositionSet;
use grid::shape::Shape;

fn insert_all(set: &mut PositionSet, entity: Entity, shape: Shape)
    ensures { (a b : ℕ) → has set.new (a, b) ≡ (member (a, b) (positions_of shape entity) || has set.old (a, b)) }
{
    for position in entity.iter(shape) {
        set.insert(position);
    }
}

fn collect<C: Cursor>(cursor: C, shape: Shape) -> PositionSet
    ensures { (a b : ℕ) → has result (a, b) ≡ member (a, b) (positions shape (C.to_come cursor)) }
{
    let mut set = PositionSet::new();
    for entity in cursor {
        insert_all(&mut set, entity, shape);
    }
    set
}

// The positions that the selector picks on a shape, or its refusal of it.
pub fn selected<O: Object>(object: &O, shape: Shape) -> Result<PositionSet, Refusal>
    ensures { Selects shape (O.meaning object.now shape) result }
{
    object.test(shape)?;
    Ok(collect(object.cells(shape), shape))
}
