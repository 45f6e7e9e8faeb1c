use thiserror::Error;
use tr_base::{Kind, NoMemory, NodeId, Point, Shapes, Size};

/// A change of the tree or of its screen.
#[derive(Clone, Copy, Debug, PartialEq, Eq)]
pub enum Edit {
    /// The child becomes the first child of a Z, or the last child of another parent. In a Z it lies
    /// at `at`, at most 2048 each way.
    Attach {
        child: NodeId,
        parent: NodeId,
        at: Point,
    },
    /// The child has no parent any more; a T that showed it by name shows none by name.
    Detach {
        child: NodeId,
    },
    /// The tint of a node's frame.
    Tint {
        node: NodeId,
        tint: u8,
    },
    /// The width of a Border.
    Border {
        node: NodeId,
        width: u8,
    },
    /// The offset of a Translate, of at most 2048 each way.
    Offset {
        node: NodeId,
        by: Point,
    },
    /// The size of a Rigid, of at most 4096 each way.
    Fix {
        node: NodeId,
        size: Size,
    },
    /// The place of a child of a Z, at most 2048 each way.
    Move {
        child: NodeId,
        at: Point,
    },
    /// A child of a Z becomes the first one, in front of all others.
    Lift {
        child: NodeId,
    },
    /// A T shows this child.
    Show {
        node: NodeId,
        child: NodeId,
    },
    /// A Page shows this page; past the last child it shows none.
    Turn {
        node: NodeId,
        page: u8,
    },
    /// The lengths that a leaf wants.
    Shapes {
        node: NodeId,
        shapes: Shapes,
    },
    /// The size of the screen, 1 to 1024 points each way.
    Resize {
        size: Size,
    },
    /// The kind of the screen's pixels.
    Rescreen {
        kind: Kind,
    },
}

/// The reason for the refusal of an edit. Of several faults the first one is named.
#[derive(Clone, Copy, Debug, PartialEq, Eq, Error)]
pub enum NodeFault {
    /// The node, or the child's parent, isn't of the kind that the edit is for.
    #[error("a node of the wrong kind")]
    WrongKind,
    /// The parent lies below the child, or is the child.
    #[error("a node would lie below itself")]
    Cycle,
    /// The parent is a filter, and already has a child.
    #[error("a filter has its child")]
    Occupied,
    /// The child has a parent, or is the root.
    #[error("the child has a place already")]
    Attached,
    /// More than 16 nodes would lie one below another.
    #[error("more than 16 nodes one below another")]
    TooDeep,
    /// The node has no parent, or another one.
    #[error("the node is not a child")]
    NotChild,
}

/// The refusal of an edit. The edit has changed nothing.
#[derive(Clone, Copy, Debug, PartialEq, Eq, Error)]
pub enum EditRefused {
    #[error("out of memory")]
    NoMemory,
    #[error("{0}")]
    Fault(NodeFault),
}

impl From<NoMemory> for EditRefused {
    ghost use Rattle.std.specs.Prelude.{◌≡◌};
    ghost use Rattle.tr_forest.specs.declared.edits.EditRefused.TheVariants as refused;

    ghost from_gives = { λ _ e. e ≡ refused.NoMemory };

    fn from(_e: NoMemory) -> EditRefused {
        EditRefused::NoMemory
    }
}

impl From<NodeFault> for EditRefused {
    ghost use Rattle.std.specs.Prelude.{◌≡◌};
    ghost use Rattle.tr_forest.specs.declared.edits.EditRefused.TheVariants as refused;

    ghost from_gives = { λ fault e. e ≡ refused.Fault fault };

    fn from(fault: NodeFault) -> EditRefused {
        EditRefused::Fault(fault)
    }
}
