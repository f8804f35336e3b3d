ghost use Rattle.std.specs.Prelude.{◌≡◌, ◌≤◌, length};
ghost use Rattle.rv_wire.specs.declared.fault.WireFault.TheVariants as faults;
ghost use Rattle.rv_wire.specs.Members.{field_text};
ghost use Rattle.rv_wire.specs.Errors.{version_text};

use rv_base::Memory;
use thiserror::Error;

/// A member of a body.
#[derive(Clone, Copy, Debug, PartialEq, Eq)]
pub enum FieldName {
    /// `pushVersion`
    PushVersion,
    /// `pullVersion`
    PullVersion,
    /// `schemaVersion`
    SchemaVersion,
    /// `profileID`
    ProfileId,
    /// `clientGroupID`
    ClientGroupId,
    /// `mutations`
    Mutations,
    /// `clientID`
    ClientId,
    /// `id`
    Id,
    /// `name`
    Name,
    /// `cookie`
    Cookie,
}

impl FieldName {
    /// The member's name.
    pub fn name(self) -> &'static str
        ensures name { result.now ≡ field_text self }
        ensures bound { length result.now ≤ 13 }
    {
        match self {
            FieldName::PushVersion => "pushVersion",
            FieldName::PullVersion => "pullVersion",
            FieldName::SchemaVersion => "schemaVersion",
            FieldName::ProfileId => "profileID",
            FieldName::ClientGroupId => "clientGroupID",
            FieldName::Mutations => "mutations",
            FieldName::ClientId => "clientID",
            FieldName::Id => "id",
            FieldName::Name => "name",
            FieldName::Cookie => "cookie",
        }
    }
}

/// What a version is of.
#[derive(Clone, Copy, Debug, PartialEq, Eq)]
pub enum VersionKind {
    /// The push.
    Push,
    /// The pull.
    Pull,
    /// The application's schema.
    Schema,
}

impl VersionKind {
    /// The name of what the version is of.
    pub fn name(self) -> &'static str
        ensures name { result.now ≡ version_text self }
        ensures bound { length result.now ≤ 6 }
    {
        match self {
            VersionKind::Push => "push",
            VersionKind::Pull => "pull",
            VersionKind::Schema => "schema",
        }
    }
}

/// Why a body was not taken: the first thing that is wrong with it.
#[derive(Clone, Copy, Debug, PartialEq, Eq, Error)]
pub enum WireFault {
    /// It is no JSON object.
    #[error("the body is no JSON object")]
    NotJson,
    /// This member is missing or of another kind.
    #[error("a member of the body is wrong")]
    Field(FieldName),
    /// This version is not served.
    #[error("a version of the body is not served")]
    Version(VersionKind),
    /// Memory was refused.
    #[error("out of memory")]
    Memory,
}

impl From<Memory> for WireFault {
    ghost from_gives = { λ _ fault. fault ≡ faults.Memory };

    fn from(_error: Memory) -> WireFault {
        WireFault::Memory
    }
}
