ghost use Rattle.std.specs.Prelude.{◌≡◌, ◌<◌};
ghost use Rattle.conc_make.specs.Draws.{drawn, next};

const MULTIPLIER: u64 = 6_364_136_223_846_793_005;

const INCREMENT: u64 = 1_442_695_040_888_963_407;

/// The numbers that an input is drawn from, of which each gives the next one.
#[derive(Drop)]
pub(crate) struct Draws {
    pub(crate) number: u64,
}

impl Draws {
    /// Goes on to the next number, and draws one of those below `n` by it.
    #[tactic(auto, unfolding(crate::specs::Draws::next, crate::specs::Draws::drawn))]
    pub(crate) fn draw(&mut self, n: u64) -> u64
        requires { 0 < n }
        ensures number { self.new.number ≡ next self.old.number }
        ensures drawn { result ≡ drawn n (next self.old.number) }
        ensures below { result < n }
    {
        self.number = self.number.wrapping_mul(MULTIPLIER).wrapping_add(INCREMENT);
        (self.number >> 33) % n
    }
}
