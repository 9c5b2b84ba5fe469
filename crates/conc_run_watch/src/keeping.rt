//! What is kept of one more look.
ghost use Rattle.std.specs.Prelude.{◌≡◌, ◌<◌, vec_len};
ghost use Rattle.std.specs.Vec.{vec_capacity};
ghost use Rattle.conc_run_watch.specs.Watches.{is_longer, with_look};

use conc_view::Snapshot;

fn is_longer(kept: &[Snapshot], snapshot: &Snapshot) -> bool
    ensures { result ≡ is_longer kept.now snapshot.now }
{
    match kept.last() {
        Some(last) => last.length < snapshot.length,
        None => true,
    }
}

/// Keeps a snapshot where it is longer than the last one that is kept, or the first.
pub(crate) fn keep(kept: &mut Vec<Snapshot>, snapshot: Snapshot)
    requires { vec_len kept.old < vec_capacity kept.old }
    ensures kept { kept.new.items ≡ with_look kept.old.items snapshot }
    ensures room { vec_capacity kept.new ≡ vec_capacity kept.old }
{
    if is_longer(kept.as_slice(), &snapshot) {
        kept.push_reserved(snapshot);
    }
}
