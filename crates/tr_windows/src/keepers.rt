ghost use Rattle.std.specs.Prelude.{◌<◌, length};

use crate::windows::Windows;
use tr_base::{LeafId, Rect, Size};
use tr_client::Client;
use tr_paint::Batch;
use tr_surface::Keeper;

impl<C: Client> Keeper for Windows<C> {
    ghost use Rattle.std.specs.Prelude.{length};
    ghost use Rattle.tr_windows.specs.Presents.{kept_by};

    ghost keeping = { λ ws. kept_by C.Client ws };

    ghost leaves = { length };

    fn keeps(&self, leaf: LeafId, from: Size, to: Size) -> Rect {
        let window = &self.windows[usize::from(leaf.0)];
        window.content.keeps(from, to)
    }

    fn batch(&self, leaf: LeafId) -> &Batch {
        let window = &self.windows[usize::from(leaf.0)];
        &window.batch
    }
}
