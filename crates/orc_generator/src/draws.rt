//! Numbers that are drawn one after another.
ghost use Rattle.std.specs.Prelude.{◌≡◌, ◌<◌};
ghost use Rattle.orc_generator.specs.Draws.{drawn, next_state};

// The multiplier and the increment of the generator, whose state is a number below 2 to the 64th.
const MULTIPLIER: u128 = 6_364_136_223_846_793_005;

const INCREMENT: u128 = 1_442_695_040_888_963_407;

/// A linear congruential generator modulo 2 to the 64th, by its state.
#[derive(Drop)]
pub(crate) struct Draws {
    pub(crate) state: u64,
}

// The state after this one.
fn next_state(state: u64) -> u64
    ensures { result ≡ next_state state }
{
    ((u128::from(state) * MULTIPLIER + INCREMENT) % 0x1_0000_0000_0000_0000) as u64
}

impl Draws {
    /// Draws a number below a bound: the state goes on by one, and its upper 31 bits give it.
    pub(crate) fn draw(&mut self, bound: u64) -> u64
        requires { 0 < bound }
        ensures state { self.new.state ≡ next_state self.old.state }
        ensures value { result ≡ drawn (next_state self.old.state) bound }
    {
        self.state = next_state(self.state);
        self.state / 0x2_0000_0000 % bound
    }
}
