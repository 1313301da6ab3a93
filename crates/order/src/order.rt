// The components of a drawn circuit in an order in which they can be evaluated.
ghost use Rattle.std.specs.Prelude.{◌≤◌, All, vec_capacity};

pub mod components;
pub mod find;
mod rounds;

// The nets of one component after another, and how many each has. All nets have one vector, and no component a vector of its
// own, since memory is taken only when an order is made.
#[derive(Debug, Drop)]
pub struct Order {
    nets: Vec<u8>,
    sizes: Vec<u8>,
    ghost wide: { 128 ≤ vec_capacity nets },
    ghost deep: { 128 ≤ vec_capacity sizes },
    ghost numbered: { All (λ x. x ≤ 127) nets.items },
}
