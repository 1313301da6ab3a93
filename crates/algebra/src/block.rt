// The algebra of a block of settings: a sign is a word with a bit for each of them.
ghost use Rattle.std.specs.Prelude.{◌*◌, ◌^◌, ◌<◌, ◌≤◌};

pub mod calls;

#[derive(Clone, Copy, Debug, PartialEq, Eq)]
pub struct Block {
    inputs: u32,
    block: u32,
    ghost few: { inputs ≤ 16 },
    ghost exists: { 64 * block < 2 ^ inputs },
}
