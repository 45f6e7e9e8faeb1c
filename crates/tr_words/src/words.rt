//! Words of a line that are passed together.

/// The words of a shape.
#[derive(Clone, Copy)]
pub struct ShapeWords<'a> {
    pub lo: &'a str,
    pub pref: &'a str,
    pub hi: &'a str,
}

/// The words of a leaf's line before its widget's.
#[derive(Clone, Copy)]
pub struct LeafWords<'a> {
    pub name: &'a str,
    pub across: ShapeWords<'a>,
    pub down: ShapeWords<'a>,
}
