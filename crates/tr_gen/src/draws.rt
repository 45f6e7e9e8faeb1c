ghost use Rattle.std.specs.Prelude.{◌≡◌, ◌<◌, ◌^◌, length};
ghost use Rattle.tr_gen.specs.Draws as spec;

use std::marker::Model;

/// The factor of the generator.
const MULTIPLIER: u32 = 1664525;

/// The increment of the generator.
const INCREMENT: u32 = 1013904223;

/// Numbers that follow from a first one, by a linear congruential generator. The model is its state.
#[derive(Drop)]
pub struct Draws {
    state: u32,
}

impl Model for Draws {
    ghost use Rattle.std.specs.Prelude.{ℕ};

    ghost Value = { ℕ };

    ghost view = { λ d. d.state };
}

impl Draws {
    /// The draws that begin at a number.
    pub fn from(number: u32) -> Draws
        ensures { result ≡ number }
    {
        Draws { state: number }
    }

    /// A number below `below`. It comes from the upper half of the state, since the lower bits of
    /// such a generator soon repeat.
    #[tactic(auto, unfolding(crate::specs::Draws::next_state, crate::specs::Draws::number_below))]
    pub fn draw(&mut self, below: u16) -> u16
        requires { 0 < below }
        ensures value { result ≡ (spec.draw below self.old).value }
        ensures state { self.new ≡ (spec.draw below self.old).state }
        ensures bound { result < below }
    {
        self.state = self.state.wrapping_mul(MULTIPLIER).wrapping_add(INCREMENT);
        (self.state / 65536) as u16 % below
    }

    /// One of the bytes.
    pub fn pick(&mut self, bytes: &[u8]) -> u8
        requires some { 0 < length bytes.now }
        requires few { length bytes.now < 2 ^ 16 }
        ensures value { result ≡ (spec.pick bytes.now self.old).value }
        ensures state { self.new ≡ (spec.pick bytes.now self.old).state }
    {
        let index = self.draw(bytes.len() as u16);
        bytes[usize::from(index)]
    }
}
