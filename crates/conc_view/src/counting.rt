ghost use Rattle.std.specs.Prelude.{◌≡◌, ◌<◌, ◌≤◌, List};
ghost use Rattle.std.specs.List.{All};
ghost use Rattle.conc_types.specs.declared.event.Event.{Event};
ghost use Rattle.conc_restart.specs.Machines.{plan_of};
ghost use Rattle.conc_view.specs.Counts.{counts_of, counts_with, place_of};
ghost use Rattle.conc_view.specs.Stands.{Stands};

use conc_restart::Machine;
use conc_types::{Phase, RequestId, Status};

fn place_of(phase: Phase) -> usize
    ensures place { result ≡ place_of phase }
    ensures inside { result < 4 }
{
    match phase {
        Phase::Pending => 0,
        Phase::Running => 1,
        Phase::Completed => 2,
        Phase::Inactive => 3,
    }
}

// Counts one more request.
fn add(counts: &mut [u32; 4], stands: Option<(Phase, Status)>)
    requires { All (λ n. n ≤ 16384) counts.old }
    ensures { counts.new ≡ counts_with stands counts.old }
{
    if let Some((phase, _)) = stands {
        counts[place_of(phase)] += 1;
    }
}

/// How many requests are submitted and in each phase, in the order Pending, Running, Completed,
/// Inactive, after the events that a machine stands for.
pub(crate) fn counts(machine: &Machine) -> [u32; 4]
    ensures { (events : List Event) → Stands machine.now events
        → result ≡ counts_of (plan_of machine.now) events }
{
    let mut counts = [0; 4];
    for i in 0..machine.plan().requests.len() {
        let id = RequestId {
            number: i as u32 + 1,
        };
        add(&mut counts, machine.status(id));
    }
    counts
}
