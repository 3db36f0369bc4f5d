// Tables of cases for the crate `grid`, each with the answer that its rules give.
#![tactic(auto)]

#[cfg(test)]
mod tests {
    use grid::entity::Entity;
    use grid::position::Position;
    use grid::range::bounds_to_usize;
    use grid::refusal::Refusal;
    use grid::set::PositionSet;
    use grid::shape::Shape;
    use std::ops::Bound;
    use std::process::Abort;
    use std::test::Fail;

    #[test]
    fn shapes(rt: HostRuntime) -> Result<(), Fail> {
        let made = [(0, 0), (0, 128), (128, 0), (128, 128), (3, 7)];
        for (rows, columns) in made {
            let shape = Shape::new(rows, columns)?;
            assert!(rt; shape.rows() == rows && shape.columns() == columns);
        }
        let refused = [
            (129, 0),
            (0, 129),
            (129, 129),
            (usize::MAX, 1),
            (1, usize::MAX),
        ];
        for (rows, columns) in refused {
            assert_eq!(rt;
                Shape::new(rows, columns).map_err(|refusal| refusal.number()),
                Err(1)
            );
        }
        Ok(())
    }

    #[test]
    fn ranges(rt: HostRuntime) -> Result<(), Fail> {
        let named = [
            (Bound::Unbounded, Bound::Included(127), 3, (0, 128)),
            (Bound::Unbounded, Bound::Excluded(128), 3, (0, 128)),
            (Bound::Unbounded, Bound::Unbounded, 0, (0, 0)),
            (Bound::Included(2), Bound::Unbounded, 5, (2, 5)),
            (Bound::Included(128), Bound::Unbounded, 5, (128, 5)),
            (Bound::Included(4), Bound::Included(4), 0, (4, 5)),
            (Bound::Included(5), Bound::Excluded(2), 9, (5, 2)),
        ];
        for (start, end, count, pair) in named {
            assert_eq!(rt; bounds_to_usize(start, end, count)?, pair);
        }
        Ok(())
    }

    #[test]
    fn ranges_refused(rt: HostRuntime) -> Result<(), Fail> {
        let refused = [
            (Bound::Unbounded, Bound::Included(128), 3, 1),
            (Bound::Unbounded, Bound::Excluded(129), 3, 1),
            (Bound::Unbounded, Bound::Included(usize::MAX), 3, 1),
            (Bound::Included(129), Bound::Excluded(1), 3, 1),
            (Bound::Included(usize::MAX), Bound::Unbounded, 3, 1),
            (Bound::Unbounded, Bound::Unbounded, 129, 1),
            (Bound::Excluded(0), Bound::Unbounded, 3, 2),
            (Bound::Excluded(999), Bound::Included(999), 3, 2),
        ];
        for (start, end, count, number) in refused {
            let answer = bounds_to_usize(start, end, count);
            assert_eq!(rt; answer.map_err(|refusal| refusal.number()), Err(number));
        }
        Ok(())
    }

    fn lists(
        rt: &impl Abort,
        entity: Entity,
        shape: Shape,
        expected: &[(usize, usize)],
    ) -> Result<(), Fail> {
        let mut cursor = entity.iter(shape);
        for (row, column) in expected {
            assert_eq!(rt; cursor.next(), Some(Position::new(*row, *column)?));
        }
        assert_eq!(rt; cursor.next(), None);
        assert_eq!(rt; cursor.next(), None, "a cursor stays at its end");
        Ok(())
    }

    #[test]
    fn entities(rt: HostRuntime) -> Result<(), Fail> {
        lists(
            &rt,
            Entity::Global,
            Shape::new(2, 3)?,
            &[(0, 0), (0, 1), (0, 2), (1, 0), (1, 1), (1, 2)],
        )?;
        lists(&rt, Entity::Row(5), Shape::new(2, 2)?, &[(5, 0), (5, 1)])?;
        lists(&rt, Entity::Column(7), Shape::new(2, 2)?, &[(0, 7), (1, 7)])?;
        lists(
            &rt,
            Entity::Cell(127, 127),
            Shape::new(1, 1)?,
            &[(127, 127)],
        )?;
        lists(&rt, Entity::Row(128), Shape::new(2, 2)?, &[])?;
        lists(&rt, Entity::Cell(0, usize::MAX), Shape::new(2, 2)?, &[])
    }

    #[test]
    fn entities_of_empty_shapes(rt: HostRuntime) -> Result<(), Fail> {
        let entities = [
            Entity::Global,
            Entity::Row(0),
            Entity::Column(0),
            Entity::Cell(0, 0),
        ];
        for entity in entities {
            lists(&rt, entity, Shape::new(0, 3)?, &[])?;
            lists(&rt, entity, Shape::new(3, 0)?, &[])?;
            lists(&rt, entity, Shape::new(0, 0)?, &[])?;
        }
        Ok(())
    }

    #[test]
    fn sets(rt: HostRuntime) -> Result<(), Fail> {
        let mut set = PositionSet::new();
        for (row, column) in [(0, 0), (3, 64), (3, 64), (64, 3), (127, 127)] {
            set.insert(Position::new(row, column)?);
        }
        let mut found = 0u32;
        for row in 0..128 {
            for column in 0..128 {
                if set.contains(Position::new(row, column)?) {
                    found = found.saturating_add(1);
                }
            }
        }
        assert_eq!(rt; found, 4);
        assert!(rt; set.contains(Position::new(64, 3)?) && !set.contains(Position::new(3, 63)?));
        Ok(())
    }

    #[test]
    fn printed(rt: HostRuntime) -> Result<(), Fail> {
        let cases = [
            (Entity::Global, "all"),
            (Entity::Row(5), "R5"),
            (Entity::Column(127), "C127"),
            (Entity::Cell(0, 12), "0:12"),
        ];
        for (entity, text) in cases {
            assert_eq!(rt; format!(in rt.alloc(); "{entity}")?.as_str(), text);
        }
        let refusal = Refusal::PastLast;
        assert_eq!(rt; format!(in rt.alloc(); "{refusal}")?.as_str(), "refused 6");
        Ok(())
    }

    #[test]
    fn refusals(rt: HostRuntime) -> Result<(), Fail> {
        assert_eq!(rt; Position::new(128, 0), Err(Refusal::OutOfRange));
        assert_eq!(rt; Refusal::OutOfRange.number(), 1);
        Ok(())
    }
}
