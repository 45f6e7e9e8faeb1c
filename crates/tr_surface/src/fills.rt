use tr_base::Rect;
use tr_exec::Brush;
use tr_screen::Run;

/// The brush that gives each point of an area one pixel.
#[derive(Drop)]
pub(crate) struct Fill {
    pub area: Rect,
    pub pixel: u8,
}

impl Brush for Fill {
    ghost area = { λ f. f.area };

    ghost pixel = { λ f _ _. f.pixel };

    fn area(&self) -> Rect {
        self.area
    }

    fn paint(&self, _run: Run, pixels: &mut [u8]) {
        pixels.fill(self.pixel);
    }
}
