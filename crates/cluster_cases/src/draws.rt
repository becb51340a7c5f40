//! Steps that are drawn from a seed.
use dso_base::ThreadId;
use dso_world::Step;

/// The seed, moved on once.
pub fn moved_on(seed: u64) -> u64 {
    seed.wrapping_mul(6_364_136_223_846_793_005)
        .wrapping_add(1_442_695_040_888_963_407)
}

/// The step that a seed names: any of six kinds, of any client from 0 to 3, of threads from 0 to 2.
pub fn drawn_step(seed: u64) -> Step {
    let number = seed >> 33;
    let client = (number / 6 % 4) as u8;
    let index = (number / 24 % 3) as u8;
    match number % 6 {
        0 => Step::Act(ThreadId { client, index }),
        1 => Step::TakeDown(client),
        2 => Step::Flush(client),
        3 => Step::TakeUp(client),
        4 => Step::Lose(client),
        _ => Step::Break(client),
    }
}
