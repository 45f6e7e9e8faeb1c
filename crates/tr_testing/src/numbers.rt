//! Numbers that look random.
ghost use Rattle.std.specs.Prelude.{◌<◌};

/// A linear congruential generator. A copy of it draws the same numbers again.
#[derive(Clone, Copy)]
pub struct Numbers {
    state: u32,
}

impl Numbers {
    pub fn new(state: u32) -> Numbers {
        Numbers { state }
    }

    fn draw(&mut self) -> u32 {
        self.state = self
            .state
            .wrapping_mul(1_664_525)
            .wrapping_add(1_013_904_223);
        self.state
    }

    /// Any byte.
    pub fn byte(&mut self) -> u8 {
        (self.draw() >> 24) as u8
    }

    /// A number below this one.
    pub fn below(&mut self, count: u16) -> u16
        requires { 0 < count }
        ensures { result < count }
    {
        (self.draw() >> 16) as u16 % count
    }
}
