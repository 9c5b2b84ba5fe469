ghost use Rattle.std.specs.Prelude.{◌≡◌, IfSome, IsTrue};
ghost use Rattle.conc_journal_image.specs.Fields.{event_in, has_record, IsSpelling};

use crate::events::{event_of, fields_for};
use crate::fields::Fields;
use conc_types::Event;

/// The event that the 31 bytes behind a record's gate spell.
#[tactic(auto, unfolding(crate::specs::Fields::event_in))]
pub fn read_record(bytes: &[u8; 31]) -> Option<Event>
    ensures event { result ≡ event_in bytes.now }
    ensures recorded { IfSome result (λ event. IsTrue (has_record event)) }
{
    event_of(&Fields::of(bytes)?)
}

/// The 31 bytes that spell the event, with this stamp where it is a command.
#[tactic(auto, unfolding(crate::specs::Fields::event_in))]
pub fn record_of(event: Event, stamp: u64) -> [u8; 31]
    requires { IsTrue (has_record event) }
    ensures { IsSpelling event stamp result }
{
    fields_for(event, stamp).bytes()
}
