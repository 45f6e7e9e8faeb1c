ghost use Rattle.std.specs.Prelude.{◌≡◌};
ghost use Rattle.tr_forest.specs.Nodes.{is_leaf, is_z, is_t, is_page, is_border, is_rigid, is_translate, is_filter, leaf_of};
ghost use Rattle.tr_forest.specs.Edits.{forgetting, paged, reshaped};

use tr_base::{LeafId, NodeId, Point, Shapes, Size};

/// The kind of a node: its arrangement of its children.
#[derive(Clone, Copy, Debug, PartialEq, Eq)]
pub enum NodeKind {
    /// Its children lie side by side, from west to east.
    H,
    /// Its children lie one below another, from north to south.
    V,
    /// Its children lie over one another, the first one in front, each at its own offset.
    Z,
    /// It shows one child: the one that was named, or the first one.
    T { shown: Option<NodeId> },
    /// It shows `per` children at a time, 1 to 16, in strips of one height; pages count from 0.
    Page { per: u8, page: u8 },
    /// It surrounds its child by `width` points on each side.
    Border { width: u8 },
    /// It has this size, of at most 4096 each way.
    Rigid { size: Size },
    /// It moves its child, by at most 2048 each way.
    Translate { by: Point },
    /// It packs its children in rows, which go across, or down if `down` is true, with 0 to 64 points
    /// between neighbours.
    Pack { down: bool, gap: u8 },
    /// A window that wants these lengths.
    Leaf { leaf: LeafId, shapes: Shapes },
}

impl NodeKind {
    pub(crate) fn is_leaf(&self) -> bool
        ensures { result ≡ is_leaf self.now }
    {
        matches!(self, NodeKind::Leaf { .. })
    }

    pub(crate) fn is_z(self) -> bool
        ensures { result ≡ is_z self }
    {
        matches!(self, NodeKind::Z)
    }

    pub(crate) fn is_t(self) -> bool
        ensures { result ≡ is_t self }
    {
        matches!(self, NodeKind::T { .. })
    }

    pub(crate) fn is_page(self) -> bool
        ensures { result ≡ is_page self }
    {
        matches!(self, NodeKind::Page { .. })
    }

    pub(crate) fn is_border(self) -> bool
        ensures { result ≡ is_border self }
    {
        matches!(self, NodeKind::Border { .. })
    }

    pub(crate) fn is_rigid(self) -> bool
        ensures { result ≡ is_rigid self }
    {
        matches!(self, NodeKind::Rigid { .. })
    }

    pub(crate) fn is_translate(self) -> bool
        ensures { result ≡ is_translate self }
    {
        matches!(self, NodeKind::Translate { .. })
    }

    pub(crate) fn is_filter(self) -> bool
        ensures { result ≡ is_filter self }
    {
        matches!(
            self,
            NodeKind::Border { .. } | NodeKind::Rigid { .. } | NodeKind::Translate { .. }
        )
    }

    /// The leaf of this kind, if it is one.
    pub(crate) fn leaf(self) -> Option<LeafId>
        ensures { result ≡ leaf_of self }
    {
        match self {
            NodeKind::Leaf { leaf, .. } => Some(leaf),
            _ => None,
        }
    }

    /// The same kind, but it no longer names the child.
    pub(crate) fn forgetting(self, child: NodeId) -> NodeKind
        ensures { result ≡ forgetting child self }
    {
        match self {
            NodeKind::T { shown: Some(shown) } if shown.0 == child.0 => NodeKind::T { shown: None },
            _ => self,
        }
    }

    /// The same kind, but a Page shows this page.
    pub(crate) fn paged(self, page: u8) -> NodeKind
        ensures { result ≡ paged page self }
    {
        match self {
            NodeKind::Page { per, .. } => NodeKind::Page { per, page },
            _ => self,
        }
    }

    /// The same kind, but a leaf wants these lengths.
    pub(crate) fn reshaped(self, shapes: Shapes) -> NodeKind
        ensures { result ≡ reshaped shapes self }
    {
        match self {
            NodeKind::Leaf { leaf, .. } => NodeKind::Leaf { leaf, shapes },
            _ => self,
        }
    }
}
