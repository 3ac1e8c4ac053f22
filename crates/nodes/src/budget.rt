//! Write budgets: after how many durable writes power fails in a call.

ghost use Rattle.std.specs.Prelude.{◌≡◌};
ghost use Rattle.model.specs.Writes.{fails as is_limited};
ghost use Rattle.nodes.specs.Budgets.{spent, allows};

/// The budget of a call in which power does not fail.
pub const UNLIMITED: u8 = 255;

/// How many durable writes a call may still make before power fails.
// A number, and no Option: the budgets of the rules and of all calls are bytes of which 255 means no failure.
#[derive(Clone, Copy)]
pub struct Budget {
    /// The writes that are left, or [`UNLIMITED`].
    pub left: u8,
}

impl Budget {
    /// Counts one write; whether it may still be made.
    pub fn spend(&mut self) -> bool
        ensures answer { result ≡ allows self.old.left }
        ensures left { self.new.left ≡ spent self.old.left }
    {
        let allowed = self.left > 0;
        if self.fails() {
            self.left = self.left.saturating_sub(1);
        }
        allowed
    }

    /// Whether power fails in the call.
    pub fn fails(&self) -> bool
        ensures { result ≡ is_limited self.now.left }
    {
        self.left < UNLIMITED
    }
}
