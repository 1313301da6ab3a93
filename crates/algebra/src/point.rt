// The algebra of one setting: a sign is the bit at it.
ghost use Rattle.std.specs.Prelude.{◌^◌, ◌<◌, ◌≤◌};

pub mod calls;

#[derive(Clone, Copy, Debug, PartialEq, Eq)]
pub struct Point {
    inputs: u32,
    setting: u32,
    ghost few: { inputs ≤ 16 },
    ghost exists: { setting < 2 ^ inputs },
}
