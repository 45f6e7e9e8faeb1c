//! A `Mu` and a `Pass` can be neither dropped nor copied: if one of them were `Drop` or `Copy`, two impls
//! of one of these traits would overlap, and the crate would not compile.
use crate::passes::Pass;
use crate::sessions::Session;
use crate::tree_locks::Mu;
use tr_client::Client;

/// The trait of a type that can be dropped.
trait LetGo {}

impl<T: Drop> LetGo for T {}

impl<C: Client, L: Session<C::Cmd>> LetGo for Pass<C, L> {}

impl<'a, C: Client, L: Session<C::Cmd>> LetGo for Mu<'a, C, L> {}

/// The trait of a type that can be copied.
trait UsedTwice {}

impl<T: Copy> UsedTwice for T {}

impl<C: Client, L: Session<C::Cmd>> UsedTwice for Pass<C, L> {}

impl<'a, C: Client, L: Session<C::Cmd>> UsedTwice for Mu<'a, C, L> {}
