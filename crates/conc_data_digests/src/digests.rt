ghost use Rattle.std.specs.Prelude.{◌≡◌};
ghost use Rattle.conc_data_digests.specs.Files.{digests_of_files};

use crate::files::InputFiles;
use conc_types::Digests;
use sha2::Digest;
use std::marker::Model;

// The digests, or the files of which they are made.
#[derive(Drop)]
enum Source {
    Made(Digests),
    Files(InputFiles),
}

/// The digests of a run's input. Contracts see the two. A digest that was not made is made, from all bytes of
/// the files, each time that it is asked for.
#[derive(Drop)]
pub struct LazyDigests {
    source: Source,
}

impl Model for LazyDigests {
    ghost use Rattle.conc_types.specs.declared.digests.Digests.{Digests};
    ghost use Rattle.conc_data_digests.specs.Sources.{digests_of};

    ghost Value = { Digests };

    ghost view = { λ d. digests_of d.source };
}

impl From<Digests> for LazyDigests {
    ghost from_gives = { λ digests d. d ≡ digests };

    fn from(digests: Digests) -> Self {
        LazyDigests {
            source: Source::Made(digests),
        }
    }
}

impl LazyDigests {
    /// Those of these files.
    pub(crate) fn of_files(files: InputFiles) -> LazyDigests
        ensures { result ≡ digests_of_files files }
    {
        LazyDigests {
            source: Source::Files(files),
        }
    }

    /// That of the setup, the script and the tables.
    pub fn full(&self) -> [u8; 32]
        ensures { result ≡ self.now.full }
    {
        match &self.source {
            Source::Made(digests) => digests.full,
            Source::Files(files) => files.full_hasher().finalize(),
        }
    }

    /// That of the setup and the tables.
    pub fn base(&self) -> [u8; 32]
        ensures { result ≡ self.now.base }
    {
        match &self.source {
            Source::Made(digests) => digests.base,
            Source::Files(files) => files.base_hasher().finalize(),
        }
    }

    /// The two.
    pub fn both(&self) -> Digests
        ensures { result ≡ self.now }
    {
        Digests {
            full: self.full(),
            base: self.base(),
        }
    }
}
