//! What a writer held, and what was given after that. It takes no memory, and only clauses read it.
ghost use Rattle.std.specs.Prelude.{◌≡◌, ◌++◌, ℕ, List, [], Option};
ghost use Rattle.std.specs.{Borrow.ftrue, Coded.coded_list, Coded.coded_option, Coded.coded_ℕ};

use std::marker::{Model, PhantomData};

/// What a writer held, where that is known, and the bytes that were given since, in their order.
#[derive(Drop)]
pub struct Given {
    marker: PhantomData<u8>,
    pub ghost start: { Option (List ℕ) } by { coded_option (coded_list coded_ℕ) },
    pub ghost bytes: { List ℕ } by { coded_list coded_ℕ },
}

impl Model for Given {
    ghost also_owns = { λ _. ftrue };
}

impl Given {
    /// A note that nothing was given.
    pub fn new() -> Given
        ghost start: { Option (List ℕ) }
        ensures { (result.start ≡ start) × (result.bytes ≡ []) }
    {
        Given {
            marker: PhantomData,
        }
    }

    /// Notes that these bytes were given.
    pub fn note(&mut self, _bytes: &[u8])
        ensures { self.new ≡ record self.old { bytes = self.old.bytes ++ _bytes.now } }
    {}
}
