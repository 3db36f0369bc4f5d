// Cursors over entities.
ghost use Rattle.std.specs.Prelude.{List, option_to_list};
ghost use Rattle.object.specs.Cursors.{CursorLaws};
ghost use Rattle.std.specs.Iterator.{YieldsFirst};
ghost use Rattle.std.specs.Iterator.Adapters.{once_item};
ghost use Rattle.std.proofs.Common.{rules};
ghost use Rattle.grid.specs.declared.entity.Entity.{Entity};

use grid::entity::Entity;
use std::iter::Once;

// An iterator over entities that means the list of those that are still to come.
pub trait Cursor: Iterator<Item = Entity> {
    ghost to_come: { Self → List Entity };

    // `next` may always be called; each call takes the front of the list, or none where the list is empty, and it
    // stays empty; and there is an end
    ghost laws: { CursorLaws Self.can_next Self.next_gives Self.remaining to_come };
}

// One entity or none.
impl Cursor for Once<Entity> {
    ghost to_come = { λ s. option_to_list (once_item s) };

    ghost laws = { record { ready = λ s. tt; steps = Prim.search rules; ends = λ s. tt } };
}

// A cursor of any type, as `&mut dyn DynCursor`: a trait above `Iterator` has no `dyn`.
pub trait DynCursor {
    ghost entities_left: { Self → List Entity };

    // The first entity of those to come, leaving the rest; none at the end, where the cursor stays.
    fn next_entity(&mut self) -> Option<Entity>
        ensures { YieldsFirst entities_left self.old result self.new };
}

impl<C: Cursor> DynCursor for C {
    ghost entities_left = { C.to_come };

    fn next_entity(&mut self) -> Option<Entity> {
        self.next()
    }
}
