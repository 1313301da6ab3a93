// The components of an order, one after another.
ghost use Rattle.std.specs.Prelude.{◌≡◌};
ghost use Rattle.std.specs.Iterator.{YieldsFirstRef, item_count};
ghost use Rattle.order.specs.Found.{order_of};
ghost use Rattle.order.specs.Left.{left};

use super::Order;

// What is left of an order: the nets of one component after another, and how many each has.
#[derive(Debug, Drop)]
pub struct Components<'a> {
    nets: &'a [u8],
    sizes: &'a [u8],
}

impl<'a> Iterator for Components<'a> {
    type Item = &'a [u8];

    ghost next_gives = { YieldsFirstRef left };

    ghost remaining = { item_count left };

    // The nets of the next component.
    fn next(&mut self) -> Option<&'a [u8]> {
        let (size, sizes) = self.sizes.split_first()?;
        let nets = self.nets;
        let (component, others) = nets.split_at(usize::from(*size).min(nets.len()));
        self.nets = others;
        self.sizes = sizes;
        Some(component)
    }
}

impl Order {
    pub fn components(&self) -> Components<'_>
        ensures { left result ≡ order_of self.now }
    {
        Components {
            nets: &self.nets,
            sizes: &self.sizes,
        }
    }
}
