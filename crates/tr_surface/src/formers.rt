use tr_tree::{Edit, Tree};

/// The tree before the last edit, and that edit. The next edit makes its tree of these.
#[derive(Drop)]
pub(crate) struct Former {
    pub tree: Tree,
    pub edit: Edit,
}
