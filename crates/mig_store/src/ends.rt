//! Which copy in flight ends next.
ghost use Rattle.std.specs.Prelude.{◌≡◌, ◌<◌};
ghost use Rattle.mig_store.specs.Orders.{next_end, after_end};

/// Which copies in flight end first.
#[derive(Clone, Copy, PartialEq, Eq)]
pub enum EndOrder {
    /// The oldest.
    First,
    /// The newest.
    Last,
    /// The newest and the oldest in turn.
    Turns,
}

#[derive(Clone, Copy, PartialEq, Eq)]
pub struct Landing {
    pub order: EndOrder,
    /// Whether it is the turn of the oldest.
    pub oldest: bool,
}

impl Landing {
    // The place of the copy that ends next, among so many.
    pub fn next(&mut self, len: usize) -> usize
        requires { 0 < len }
        ensures value { result ≡ next_end self.old len }
        ensures after { self.new ≡ after_end self.old }
        ensures in_range { result < len }
    {
        match self.order {
            EndOrder::First => 0,
            EndOrder::Last => len - 1,
            EndOrder::Turns => {
                let oldest = self.oldest;
                self.oldest = !oldest;
                if oldest { 0 } else { len - 1 }
            }
        }
    }
}
