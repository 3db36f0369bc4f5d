// What the tables are held to.
use grid::entity::Entity;
use grid::shape::Shape;
use object::object::Object;
use std::process::Abort;
use std::test::Fail;

// The selector accepts the shape and lists these entities, and its cursor stays at its end.
pub(crate) fn lists<O: Object>(
    rt: &impl Abort,
    object: &O,
    shape: Shape,
    expected: &[Entity],
) -> Result<(), Fail> {
    object.test(shape)?;
    let mut cursor = object.cells(shape);
    for entity in expected {
        assert_eq!(rt; cursor.next(), Some(*entity));
    }
    assert_eq!(rt; cursor.next(), None);
    assert_eq!(rt; cursor.next(), None, "a cursor stays at its end");
    Ok(())
}

// The selector refuses the shape with this number and lists nothing.
pub(crate) fn refuses<O: Object>(
    rt: &impl Abort,
    object: &O,
    shape: Shape,
    number: u8,
) -> Result<(), Fail> {
    assert_eq!(rt;
        object.test(shape).map_err(|refusal| refusal.number()),
        Err(number)
    );
    let mut cursor = object.cells(shape);
    assert_eq!(rt;
        cursor.next(),
        None,
        "a selector that refuses lists nothing"
    );
    Ok(())
}
