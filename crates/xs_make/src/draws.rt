ghost use Rattle.std.specs.Prelude.{◌≡◌, ◌<◌, ◌≤◌};
ghost use Rattle.xs_make.specs.Draws.{drawn, next_state, number_of, state_after};

use std::marker::Model;

const FACTOR: u64 = 6_364_136_223_846_793_005;

const STEP: u64 = 1_442_695_040_888_963_407;

/// Numbers that look random, from a seed: a linear congruential generator with a state of 64 bits, of which a draw
/// takes the high ones. Contracts see it as its state.
#[derive(Debug, Drop)]
pub(crate) struct Draws {
    state: u64,
}

impl Model for Draws {
    ghost use Rattle.std.specs.Prelude.{ℕ, ◌<◌, ◌^◌};

    ghost Value = { ℕ };

    ghost view = { λ d. d.state };

    ghost invariant = { λ d. d.state < 2 ^ 64 };
}

impl Draws {
    /// The numbers of a seed.
    pub(crate) fn new(seed: u32) -> Draws
        ensures { result ≡ seed }
    {
        Draws { state: seed as u64 }
    }

    /// The next number, which is below the bound.
    #[tactic(auto, unfolding(crate::specs::Draws::state_after))]
    pub(crate) fn draw(&mut self, bound: u32) -> u32
        requires { 1 ≤ bound }
        ensures number { result ≡ drawn self.old 0 bound }
        ensures state { self.new ≡ state_after self.old 1 }
        ensures below { result < bound }
    {
        self.state = following(self.state);
        number(self.state, bound)
    }
}

/// The state that follows a state.
#[tactic(auto, unfolding(crate::specs::Draws::next_state))]
fn following(state: u64) -> u64
    ensures { result ≡ next_state state }
{
    let wide = state as u128 * FACTOR as u128 + STEP as u128;
    (wide % (1 << 64)) as u64
}

/// The number below a bound that a state gives.
#[tactic(auto, unfolding(crate::specs::Draws::number_of))]
fn number(state: u64, bound: u32) -> u32
    requires { 1 ≤ bound }
    ensures number { result ≡ number_of state bound }
    ensures below { result < bound }
{
    ((state >> 33) % bound as u64) as u32
}
