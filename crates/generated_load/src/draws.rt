//! Numbers drawn one after another.
ghost use Rattle.generated_load.specs.Draws.{drawn, next};
ghost use Rattle.std.specs.Prelude.{◌≡◌, ◌<◌, ◌^◌};

/// The state behind the last draw. It is below 2^32.
#[derive(Clone, Copy)]
pub(crate) struct Draws {
    pub(crate) state: u32,
}

impl Draws {
    /// The next of so many numbers, from 0.
    pub(crate) fn draw(&mut self, of: u32) -> u32
        requires { 0 < of }
        ensures number { result ≡ drawn self.new.state of }
        ensures state { self.new.state ≡ next self.old.state }
        ensures below { result < of }
    {
        let state = (1_103_515_245 * u64::from(self.state) + 12_345) % (1 << 31);
        self.state = state as u32;
        self.state / 256 % of
    }
}
