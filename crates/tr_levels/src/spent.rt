//! A ladder must be spent, and is not copied: if it were `Drop` or `Copy`, two impls of one of these
//! traits would overlap, and the crate would not compile.
use crate::ladders::Ladder;

/// A type whose values may be dropped.
trait LetGo {}

impl<T: Drop> LetGo for T {}

impl LetGo for Ladder {}

/// A type whose values may be used twice.
trait UsedTwice {}

impl<T: Copy> UsedTwice for T {}

impl UsedTwice for Ladder {}
