// The cells on the edge of the grid.
ghost use Rattle.std.specs.Prelude.{◌≡◌};
ghost use Rattle.std.specs.Iterator.{YieldsFirst, item_count};
ghost use Rattle.grid.specs.declared.entity.Entity.TheVariants.{Global};
ghost use Rattle.grid.specs.Cursors.{remaining as positions_left};
ghost use Rattle.grid.specs.Positions.{coordinates, positions_of};
ghost use Rattle.object.specs.Cursors.{gives_its_list};
ghost use Rattle.ranged.specs.Ranged.{is_on_edge, edge_of, frame_left, frame_means, ListsFrame};
ghost use Rattle.ranged.specs.Laws.{frame};

use grid::entity::Entity;
use grid::iterator::EntityIterator;
use grid::position::Position;
use grid::refusal::Refusal;
use grid::shape::Shape;
use object::cursor::Cursor;
use object::object::Object;

#[derive(Drop)]
pub struct FrameIter {
    shape: Shape,
    positions: EntityIterator,
}

impl FrameIter {
    #[tactic(auto, using(crate::proofs::Frames::lists_frame))]
    pub fn new(shape: Shape) -> Self
        ensures means { edge_of result.shape (positions_left result.positions) ≡ edge_of shape (positions_of shape Global) }
        ensures lists { ListsFrame shape (edge_of result.shape (positions_left result.positions)) }
    {
        FrameIter {
            shape,
            positions: Entity::Global.iter(shape),
        }
    }
}

// Whether the position is in the first or last row, or in the first or last column.
fn is_on_edge(position: Position, shape: Shape) -> bool
    ensures { result ≡ is_on_edge shape (coordinates position) }
{
    let row = position.row();
    let column = position.column();
    row == 0 || row + 1 == shape.rows() || column == 0 || column + 1 == shape.columns()
}

impl Iterator for FrameIter {
    type Item = Entity;

    ghost next_gives = { YieldsFirst frame_left };

    ghost remaining = { item_count frame_left };

    fn next(&mut self) -> Option<Entity> {
        // A loop, not `find`, whose proof asks a lemma over closures where this asks an invariant.
        while let Some(position) = self.positions.next() {
            if is_on_edge(position, self.shape) {
                return Some(Entity::from(position));
            }
        }
        None
    }
}

impl Cursor for FrameIter {
    ghost to_come = { frame_left };

    ghost laws = { gives_its_list frame_left };
}

// The cells in the first and last row and column of the grid, each once.
#[derive(Clone, Copy, Debug, PartialEq, Eq)]
pub struct Frame;

impl Object for Frame {
    type Iter = FrameIter;

    ghost meaning = { λ _ s. frame_means s };

    ghost bounded = { λ _ s. (frame s).0 };

    ghost distinct = { λ _ s. (frame s).1 };

    fn test(&self, _shape: Shape) -> Result<(), Refusal> {
        Ok(())
    }

    fn cells(&self, shape: Shape) -> FrameIter {
        FrameIter::new(shape)
    }
}
