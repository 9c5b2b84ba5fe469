ghost use Rattle.std.specs.Prelude.{◌≡◌};
ghost use Rattle.conc_base_law.specs.Events.{event_eq, extent_eq, outcome_eq};

use conc_types::{Event, Extent, Outcome};

fn is_same_outcome(a: Outcome, b: Outcome) -> bool
    ensures { result ≡ outcome_eq a b }
{
    match (a, b) {
        (Outcome::Normal, Outcome::Normal) => true,
        (Outcome::Warning, Outcome::Warning) => true,
        (Outcome::Error, Outcome::Error) => true,
        (Outcome::Terminated, Outcome::Terminated) => true,
        (Outcome::Cancelled, Outcome::Cancelled) => true,
        _ => false,
    }
}

fn is_same_extent(a: Option<Extent>, b: Option<Extent>) -> bool
    ensures { result ≡ extent_eq a b }
{
    match (a, b) {
        (None, None) => true,
        (Some(x), Some(y)) => x.offset == y.offset && x.length == y.length,
        _ => false,
    }
}

/// Whether two events are equal.
#[tactic(auto, unfolding(conc_base_law::specs::Events::event_eq))]
pub fn is_same_event(a: Event, b: Event) -> bool
    ensures { result ≡ event_eq a b }
{
    match (a, b) {
        (Event::Tick { moment: t }, Event::Tick { moment: u }) => t.seconds == u.seconds,
        (Event::Command { number: m }, Event::Command { number: n }) => m == n,
        (Event::OpenSet { set: x }, Event::OpenSet { set: y }) => x.number == y.number,
        (Event::Stage { set: x, stage: k }, Event::Stage { set: y, stage: l }) => {
            x.number == y.number && k == l
        }
        (Event::CloseSet { set: x, outcome: o }, Event::CloseSet { set: y, outcome: p }) => {
            x.number == y.number && is_same_outcome(o, p)
        }
        (Event::LetOut { request: x }, Event::LetOut { request: y }) => x.number == y.number,
        (
            Event::Started {
                request: x,
                place: p,
            },
            Event::Started {
                request: y,
                place: q,
            },
        ) => x.number == y.number && p.index == q.index,
        (
            Event::Ended {
                request: x,
                outcome: o,
                extent: e,
            },
            Event::Ended {
                request: y,
                outcome: p,
                extent: f,
            },
        ) => x.number == y.number && is_same_outcome(o, p) && is_same_extent(e, f),
        (Event::Resume, Event::Resume) => true,
        (Event::Interrupt { request: x }, Event::Interrupt { request: y }) => x.number == y.number,
        _ => false,
    }
}
