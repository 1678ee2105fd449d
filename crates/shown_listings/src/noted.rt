//! Lists of bytes that are noted. They take no memory, and only clauses read them.
ghost use Rattle.std.specs.Prelude.{◌≡◌, ◌++◌, ◌∷◌, [], ℕ, List};
ghost use Rattle.std.specs.{Borrow.ftrue, Coded.coded_list, Coded.coded_ℕ};

use std::marker::{Model, PhantomData};

/// What was noted, in its order.
#[derive(Drop)]
pub struct Noted {
    marker: PhantomData<u8>,
    pub ghost items: { List (List ℕ) } by { coded_list (coded_list coded_ℕ) },
}

impl Model for Noted {
    ghost also_owns = { λ _. ftrue };
}

impl Noted {
    /// Nothing yet.
    pub fn new() -> Noted
        ensures { result.items ≡ [] }
    {
        Noted {
            marker: PhantomData,
        }
    }

    /// Notes these bytes.
    pub fn note(&mut self, _bytes: &[u8])
        ensures { self.new ≡ record self.old { items = self.old.items ++ (_bytes.now ∷ []) } }
    {}
}
