//! Whether there is no trace, where nothing is salvaged.
ghost use Rattle.std.specs.Prelude.{◌≡◌, ◌+◌, ◌*◌, ◌≤◌, length, true, false};
ghost use Rattle.trace_store.specs.{Device.OnlyReads, Moments.Rose};
ghost use Rattle.foreign_files.specs.Standing.{IsStanding};
ghost use Rattle.foreign_files.specs.declared.standing.Standing.TheVariants as standings;

use foreign_files::{Standing, look};
use trace_store::Store;

/// Whether no file has a byte, where so many were salvaged. If a device call fails it isn't said.
#[tactic(auto, using(crate::proofs::NotBlank::ours_there, crate::proofs::NotBlank::foreign_there))]
pub fn is_absent<S: Store>(store: &mut S, salvaged: u64) -> bool
    ensures absent { S.honest store.new → result ≡ true
        → (salvaged ≡ 0) × IsStanding standings.Absent (S.reads store.old) }
    ensures other { S.honest store.new → result ≡ false → salvaged ≡ 0
        → IsStanding standings.Absent (S.reads store.old)
        → Rose (S.failures_of store.old) (S.failures_of store.new) }
    ensures only_reads { OnlyReads S.made S.honest S.clock_of S.reads S.images S.moments store.old
        store.new }
    ensures at_most { S.clock_of store.new ≤ S.clock_of store.old + 2 * length (S.reads store.old) }
{
    if salvaged > 0 {
        return false;
    }
    match look(store) {
        Ok(Standing::Absent) => true,
        Ok(Standing::Ours) => false,
        Ok(Standing::Foreign { .. }) => false,
        Err(_) => false,
    }
}
