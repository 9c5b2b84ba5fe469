ghost use Rattle.std.specs.Prelude.{◌≡◌, ◌<◌, All, length};
ghost use Rattle.conc_machine_release.specs.Rivals as spec;
ghost use Rattle.conc_machine_release.specs.Rivals.{counted_all, counted_at};

use conc_types::Seq;

// One more, or one less.
fn counted(count: u32, more: bool) -> u32
    ensures { result ≡ spec.counted more count }
{
    if more {
        count.saturating_add(1)
    } else {
        count.saturating_sub(1)
    }
}

fn count_at(counts: &mut Seq<u32>, class: usize, more: bool)
    requires { class < length counts.old }
    ensures { counts.new ≡ counted_at more counts.old class }
{
    let count = counts.as_slice()[class];
    counts.set(class, counted(count, more));
}

/// Counts one more, or one less, for each of these classes.
pub(crate) fn count_all(counts: &mut Seq<u32>, classes: &[u32], more: bool)
    requires { All (λ class. class < length counts.old) classes.now }
    ensures { counts.new ≡ counted_all more classes.now counts.old }
{
    for class in classes {
        count_at(counts, *class as usize, more);
    }
}
