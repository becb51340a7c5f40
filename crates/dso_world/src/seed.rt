//! A seed, moved on step by step (`specs/ChosenSlot.antt`).
ghost use Rattle.std.specs.Prelude.{◌≡◌, ◌≤◌, ◌<◌};
ghost use Rattle.dso_world.specs.ChosenSlot.{moved_on, seed_after, lot};

/// A seed, and what it is after so many moves.
#[derive(Clone, Copy, Debug)]
pub(crate) struct SeedState {
    seed: u64,
    moves: u64,
    now: u64,
    ghost reached: { now ≡ seed_after moves seed },
}

/// A seed moved on once.
fn moved_on(x: u64) -> u64
    ensures { result ≡ moved_on x }
{
    x.wrapping_mul(6_364_136_223_846_793_005)
        .wrapping_add(1_442_695_040_888_963_407)
}

impl SeedState {
    /// The seed before its first move.
    pub(crate) fn new(seed: u64) -> SeedState
        ensures seed { result.seed ≡ seed }
        ensures moves { result.moves ≡ 0 }
    {
        SeedState {
            seed,
            moves: 0,
            now: seed,
        }
    }

    /// This seed after so many moves. The same seed goes on from where it was.
    pub(crate) fn moved_to(self, seed: u64, moves: u64) -> SeedState
        ensures seed { result.seed ≡ seed }
        ensures moves { result.moves ≡ moves }
    {
        if self.seed == seed && self.moves <= moves {
            self.moved_on_to(moves)
        } else {
            SeedState::new(seed).moved_on_to(moves)
        }
    }

    /// It costs a step for each move that it hadn't made.
    fn moved_on_to(self, moves: u64) -> SeedState
        requires { self.moves ≤ moves }
        ensures seed { result.seed ≡ self.seed }
        ensures moves { result.moves ≡ moves }
    {
        let mut now = self.now;
        for _move in self.moves..moves {
            now = moved_on(now);
        }
        SeedState {
            seed: self.seed,
            moves,
            now,
        }
    }

    /// Which of so many it names now.
    pub(crate) fn lot(self, count: usize) -> usize
        requires { 0 < count }
        ensures { result ≡ lot self.now count }
    {
        ((self.now >> 33) % count as u64) as usize
    }
}
