ghost use Rattle.std.specs.Prelude.{◌≡◌, ◌↔◌, IsTrue, IfOk};

use std::alloc::Global;
use tr_base::{Kind, NoMemory, NodeId, Point, Shapes, Size};
use tr_client::Client;
use tr_forest::NodeKind;

/// One of the items that make an opening.
#[derive(Drop)]
pub enum Item<C> {
    /// The screen, of this size and kind: it comes first.
    Screen {
        size: Size,
        kind: Kind,
    },
    /// The glyph of a byte from 32 to 126.
    Glyph {
        byte: u8,
        rows: [u8; 8],
    },
    /// A node that isn't a leaf. Nodes and leaves are numbered as nodes from 0, in their order.
    Node {
        kind: NodeKind,
        tint: u8,
    },
    /// A leaf that wants these lengths, and its content. Leaves are numbered from 0, too.
    Leaf {
        shapes: Shapes,
        content: C,
    },
    /// A node becomes a child of another, and lies at `at` if the parent is a Z.
    Put {
        child: NodeId,
        parent: NodeId,
        at: Point,
    },
    /// A node becomes the root.
    Root {
        node: NodeId,
    },
}

impl<C: Client> Item<C> {
    /// A copy of the item.
    pub(crate) fn copy(&self, alloc: Global) -> Result<Item<C>, NoMemory>
        ensures { IfOk result (λ item. item ≡ self.now) }
    {
        Ok(match self {
            Item::Screen { size, kind } => Item::Screen {
                size: *size,
                kind: *kind,
            },
            Item::Glyph { byte, rows } => Item::Glyph {
                byte: *byte,
                rows: *rows,
            },
            Item::Node { kind, tint } => Item::Node {
                kind: *kind,
                tint: *tint,
            },
            Item::Leaf { shapes, content } => Item::Leaf {
                shapes: *shapes,
                content: content.copy(alloc)?,
            },
            Item::Put { child, parent, at } => Item::Put {
                child: *child,
                parent: *parent,
                at: *at,
            },
            Item::Root { node } => Item::Root { node: *node },
        })
    }

    /// Whether both are the same item.
    pub(crate) fn same(&self, other: &Item<C>) -> bool
        ensures { IsTrue result ↔ (self.now ≡ other.now) }
    {
        match self {
            Item::Screen { size, kind } => {
                matches!(other, Item::Screen { size: other_size, kind: other_kind }
                    if size == other_size && kind == other_kind)
            }
            Item::Glyph { byte, rows } => {
                matches!(other, Item::Glyph { byte: other_byte, rows: other_rows }
                    if byte == other_byte && rows == other_rows)
            }
            Item::Node { kind, tint } => {
                matches!(other, Item::Node { kind: other_kind, tint: other_tint }
                    if kind == other_kind && tint == other_tint)
            }
            Item::Leaf { shapes, content } => {
                matches!(other, Item::Leaf { shapes: other_shapes, content: other_content }
                    if shapes == other_shapes && content.same(other_content))
            }
            Item::Put { child, parent, at } => {
                matches!(other, Item::Put { child: other_child, parent: other_parent, at: other_at }
                    if child == other_child && parent == other_parent && at == other_at)
            }
            Item::Root { node } =>
                matches!(other, Item::Root { node: other_node } if node == other_node),
        }
    }
}
