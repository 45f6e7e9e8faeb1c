ghost use Rattle.std.specs.Prelude.{◌≡◌, IfOk};

use std::alloc::Global;
use std::marker::Model;
use std::sync::Arc;
use tr_base::{NoMemory, Pixmap};

/// A picture given as pixels. Its copies share the pixels, so a copy takes no memory.
#[derive(Debug, Drop)]
pub struct SharedPixmap {
    kept: Arc<Pixmap>,
}

impl Model for SharedPixmap {
    ghost use Rattle.std.specs.Arc.{arc_value};
    ghost use Rattle.tr_base.specs.Pixmaps.{PixmapView};

    ghost Value = { PixmapView };

    ghost view = { λ m. arc_value m.kept };
}

impl SharedPixmap {
    /// The same picture, to be shared.
    pub fn of(alloc: Global, pixmap: Pixmap) -> Result<SharedPixmap, NoMemory>
        ensures { IfOk result (λ m. m ≡ pixmap) }
    {
        Ok(SharedPixmap {
            kept: Arc::new(alloc, pixmap)?,
        })
    }

    /// The picture itself.
    pub fn pixmap(&self) -> &Pixmap
        ensures { result.now ≡ self.now }
    {
        &self.kept
    }

    /// The same picture.
    pub fn copy(&self) -> Result<SharedPixmap, NoMemory>
        ensures { IfOk result (λ m. m ≡ self.now) }
    {
        Ok(SharedPixmap {
            kept: Arc::try_clone(&self.kept)?,
        })
    }
}
