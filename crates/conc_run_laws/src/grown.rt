//! A journal whose script has grown since it was written.
ghost use Rattle.std.specs.Prelude.{◌≡◌, List, ℕ};
ghost use Rattle.conc_types.specs.declared.digests.Digests.{Digests};
ghost use Rattle.conc_types.specs.declared.plan.Plan.{Plan};
ghost use Rattle.conc_journal.specs.Opens.{events_of};
ghost use Rattle.conc_journal_image.specs.Image.{version_in};
ghost use Rattle.conc_journal_image.specs.declared.label.Version.TheVariants.{Two};
ghost use Rattle.conc_base_law.specs.Growth.{Grows};
ghost use Rattle.conc_run_laws.specs.Grown.{AreOfTheirScripts};
ghost use Rattle.conc_run_laws.specs.Next.{IsFit};

use conc_base_law::grown_list_is_lawful;

/// Let a journal of version 2 and a spool fit the files of a plan. They fit those of a grown one too: of a
/// plan with the same setup and tables, whose script has each command that was done, and whose further
/// commands are later than the last tick. So a run of the grown script refuses nothing but for want of
/// room.
pub fn a_grown_script_fits()
    ensures { (plan grown : Plan) (digests others : Digests) (image texts : List ℕ) →
        version_in image ≡ Two → others.base ≡ digests.base → AreOfTheirScripts plan grown →
        Grows plan grown (events_of image) → IsFit plan digests image texts →
        IsFit grown others image texts }
{
    grown_list_is_lawful();
}
