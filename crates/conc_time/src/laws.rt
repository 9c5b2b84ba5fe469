ghost use Rattle.std.specs.Prelude.{◌≡◌, ◌↔◌, ℕ, List, Some};
ghost use Rattle.conc_types.specs.declared.event.Moment.{Moment};
ghost use Rattle.conc_base_law.specs.Calendar.{moment_of, SpellsMoment};
ghost use Rattle.conc_base_law.specs.Moments.{moment_text};

/// Bytes spell a moment exactly where they are its text.
pub fn moments_have_one_spelling()
    ensures { (bytes : List ℕ) (t : Moment) → SpellsMoment bytes t ↔ (bytes ≡ moment_text t) }
{}

/// The text of each moment is read back.
pub fn moments_are_read_back()
    ensures { (t : Moment) → moment_of (moment_text t) ≡ Some t }
{}
