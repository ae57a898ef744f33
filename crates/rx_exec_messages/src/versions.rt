//! Versions of the API as a message tells them (`build/bazel/semver/semver.proto`, SemVer).

ghost use Rattle.std.specs.Prelude.{◌≡◌};
ghost use Rattle.rx_exec_messages.specs.Versions.{sem_ver_of, version_of};

use crate::numbers::version;
use rx_base::NoMemory;
use rx_codec::{FieldList, Message, MessageFault, Shape, Writer};
use rx_wire::{Fields, Value, WireFault};
use rx_world::SemVer;
use std::alloc::Global;

/// A version of the API (`build/bazel/semver/semver.proto`, SemVer). Its `prerelease` isn't read.
#[derive(Clone, Copy, Debug, PartialEq, Eq)]
pub struct Version {
    pub major: i32,
    pub minor: i32,
    pub patch: i32,
}

impl Version {
    /// The message that tells a version.
    pub fn of(version: SemVer) -> Version
        ensures { result ≡ version_of version }
    {
        Version {
            major: version.major,
            minor: version.minor,
            patch: version.patch,
        }
    }

    /// The version that this message tells.
    pub fn sem_ver(self) -> SemVer
        ensures { result ≡ sem_ver_of self }
    {
        SemVer {
            major: self.major,
            minor: self.minor,
            patch: self.patch,
        }
    }
}

impl Shape for Version {
    ghost use Rattle.rx_exec_messages.specs.Versions.{version_parts};

    ghost parts = { version_parts };
}

impl Message for Version {
    ghost use Rattle.rx_codec.specs.Decoding.{any_form};
    ghost use Rattle.rx_exec_messages.specs.Versions.{version_fields, version_from};
    ghost use Rattle.rx_exec_messages.specs.Versions.{version_is_readable};

    ghost fields = { version_fields };

    ghost from = { version_from };

    ghost is_canonical = { any_form };

    ghost IsReadable = { version_is_readable };

    #[tactic(auto, unfolding(rx_codec::specs::Parts::part_checked))]
    fn check_field(number: u32, value: Value<'_>, read: &Fields<'_>) -> Result<(), WireFault> {
        Ok(())
    }

    #[tactic(auto, unfolding(crate::specs::Versions::version_from))]
    fn from_fields(alloc: Global, list: &FieldList<'_, Version>) -> Result<Version, MessageFault> {
        let major = list.int32(version::MAJOR);
        let minor = list.int32(version::MINOR);
        let patch = list.int32(version::PATCH);
        Ok(Version {
            major,
            minor,
            patch,
        })
    }

    #[tactic(auto, unfolding(crate::specs::Versions::version_fields))]
    fn write(&self, alloc: Global, out: &mut Writer<Version>) -> Result<(), NoMemory> {
        let major = self.major;
        let minor = self.minor;
        let patch = self.patch;
        out.int32(version::MAJOR, major)?;
        out.int32(version::MINOR, minor)?;
        out.int32(version::PATCH, patch)
    }

    fn has_one_form(&self, alloc: Global, bytes: &[u8]) -> Result<bool, NoMemory> {
        Ok(true)
    }
}
