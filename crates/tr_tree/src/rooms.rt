ghost use Rattle.std.specs.Prelude.{◌≡◌, IfOk, OnOk};

use tr_base::{NoMemory, Rect, Shapes};

/// Room for the shapes and the places of one node's children while the tree is laid out. It has as many
/// entries as there are nodes, so the layout takes no memory.
#[derive(Drop)]
pub(crate) struct Room {
    pub(crate) shapes: Vec<Shapes>,
    pub(crate) places: Vec<Rect>,
}

impl Room {
    pub(crate) fn copy(&self) -> Result<Room, NoMemory>
        ensures shapes { IfOk result (λ r. r.shapes.items ≡ self.now.shapes.items) }
        ensures places { IfOk result (λ r. r.places.items ≡ self.now.places.items) }
    {
        let shapes = Vec::from_slice(*self.shapes.allocator(), &self.shapes)?;
        let Ok(places) = Vec::from_slice(*self.places.allocator(), &self.places) else {
            drop(shapes);
            return Err(NoMemory);
        };
        Ok(Room { shapes, places })
    }

    /// Becomes equal to another room, in its own memory.
    pub(crate) fn copy_from(&mut self, other: &Room) -> Result<(), NoMemory>
        ensures shapes { OnOk result (self.new.shapes.items ≡ other.now.shapes.items) }
        ensures places { OnOk result (self.new.places.items ≡ other.now.places.items) }
    {
        self.shapes.clear();
        self.shapes.extend_from_slice(&other.shapes)?;
        self.places.clear();
        self.places.extend_from_slice(&other.places)?;
        Ok(())
    }
}
