ghost use Rattle.std.specs.Prelude.{◌≡◌, IfOk};
ghost use Rattle.solo.specs.Signs.{answers, FourSlots};

use crate::Solo;
use feed::job::Job;
use runs::events::Call;
use runs::run::{Fault, Ran, run};
use std::alloc::Global;

// The only station signs a setpoint: a turn in, two accesses, a turn out, and one slot too many.
// That it rests with its fourth slot, and not before, is what `run` promises of a lone order, since the lock's lone cost is exact.
pub fn signs_alone(heap: Global) -> Result<Ran<Solo>, Fault>
    ensures told { IfOk result (λ d. d.events.items ≡ answers) }
    ensures four { IfOk result (λ d. FourSlots d.events.items) }
{
    let calls = [
        Call::Order(1, Job::Sign(200_000)),
        Call::Slot(1),
        Call::Slot(1),
        Call::Slot(1),
        Call::Slot(1),
        Call::Slot(1),
    ];
    run(heap, Solo::new(), 200_000, &calls)
}
