ghost use Rattle.std.specs.Prelude.{◌≡◌, ◌+◌, ℕ, IfOk, OnOk, length};
ghost use Rattle.tr_base.specs.Rects.{IsScreenSize};
ghost use Rattle.tr_base.specs.Layouts.{farthest, IsOffset};
ghost use Rattle.tr_forest.specs.Nodes.{IsNode};

use crate::domains::{Plan, lay, lay_out};
use crate::rooms::Room;
use crate::wishes::{fill_shapes, no_shapes};
use std::alloc::Global;
use tr_base::{NoMemory, NodeId, Point, Rect, Shapes, Size, empty_place, preferred_place};
use tr_forest::Forest;

/// The shapes and the domain of each node, and the room in which they are computed.
#[derive(Drop)]
pub(crate) struct Layout {
    pub(crate) shapes: Vec<Shapes>,
    pub(crate) domains: Vec<Rect>,
    pub(crate) room: Room,
}

impl Layout {
    ghost use Rattle.tr_tree.specs.Ready.{HavePlaces, HasShapes, IsLaidOut, IsPlacedAt, HasOtherDomains, HaveSamePlaces, HasSpare};

    /// The layout of no nodes.
    pub(crate) fn new(alloc: Global) -> Layout
        ensures { HavePlaces 0 result }
    {
        Layout {
            shapes: Vec::new(alloc),
            domains: Vec::new(alloc),
            room: Room {
                shapes: Vec::new(alloc),
                places: Vec::new(alloc),
            },
        }
    }

    /// Takes the memory for one more node.
    pub(crate) fn reserve(&mut self) -> Result<(), NoMemory>
        ensures ok { OnOk result (HasSpare self.new) }
        ensures same { HaveSamePlaces self.old self.new }
    {
        self.shapes.reserve(1)?;
        self.domains.reserve(1)?;
        self.room.shapes.reserve(1)?;
        self.room.places.reserve(1)?;
        Ok(())
    }

    /// Adds an entry for one more node.
    pub(crate) fn grow(&mut self)
        requires { HasSpare self.old }
        ensures { (count : ℕ) → HavePlaces count self.old → HavePlaces (count + 1) self.new }
    {
        self.shapes.push_reserved(no_shapes());
        self.domains.push_reserved(empty_place());
        self.room.shapes.push_reserved(no_shapes());
        self.room.places.push_reserved(empty_place());
    }

    /// Computes the domains again. It takes no memory.
    pub(crate) fn place(&mut self, forest: &Forest, size: Size)
        requires size { IsScreenSize size }
        requires places { HavePlaces (length forest.now.entries) self.old }
        requires shapes { HasShapes forest.now self.old }
        ensures { IsLaidOut forest.now size self.new }
    {
        let plan = Plan {
            forest,
            size,
            shapes: &self.shapes,
        };
        lay_out(&plan, &mut self.room, &mut self.domains);
    }

    /// Computes the domains of a child that its parent places at a new offset, and of all nodes below it. It
    /// takes no memory.
    pub(crate) fn place_moved(&mut self, forest: &Forest, size: Size, child: NodeId, at: Point)
        requires size { IsScreenSize size }
        requires places { HavePlaces (length forest.now.entries) self.old }
        requires shapes { HasShapes forest.now self.old }
        requires child { IsNode forest.now child }
        requires offset { IsOffset farthest at }
        requires placed { IsPlacedAt forest.now child at }
        requires others { HasOtherDomains forest.now size child self.old }
        ensures { IsLaidOut forest.now size self.new }
    {
        forest.invariant();
        let Some(parent) = forest.parent(child) else {
            self.place(forest, size);
            return;
        };
        let rect = self.domains[usize::from(parent.0)];
        let shapes = self.shapes[usize::from(child.0)];
        let place = preferred_place(&rect, at, &shapes);
        self.domains[usize::from(child.0)] = place;
        let plan = Plan {
            forest,
            size,
            shapes: &self.shapes,
        };
        lay(&plan, child, &mut self.room, &mut self.domains);
    }

    /// Computes the shapes and the domains again. It takes no memory.
    pub(crate) fn fill(&mut self, forest: &Forest, size: Size)
        requires size { IsScreenSize size }
        requires places { HavePlaces (length forest.now.entries) self.old }
        ensures { IsLaidOut forest.now size self.new }
    {
        fill_shapes(forest, &mut self.room.shapes, &mut self.shapes);
        self.place(forest, size);
    }

    pub(crate) fn copy(&self) -> Result<Layout, NoMemory>
        ensures { IfOk result (λ l. HaveSamePlaces self.now l) }
    {
        let shapes = Vec::from_slice(*self.shapes.allocator(), &self.shapes)?;
        let Ok(domains) = Vec::from_slice(*self.domains.allocator(), &self.domains) else {
            drop(shapes);
            return Err(NoMemory);
        };
        let Ok(room) = self.room.copy() else {
            drop((shapes, domains));
            return Err(NoMemory);
        };
        Ok(Layout {
            shapes,
            domains,
            room,
        })
    }

    /// Becomes equal to another layout, in its own memory.
    pub(crate) fn copy_from(&mut self, other: &Layout) -> Result<(), NoMemory>
        ensures { OnOk result (HaveSamePlaces other.now self.new) }
    {
        self.shapes.clear();
        self.shapes.extend_from_slice(&other.shapes)?;
        self.domains.clear();
        self.domains.extend_from_slice(&other.domains)?;
        self.room.copy_from(&other.room)
    }
}
