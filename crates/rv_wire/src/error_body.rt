use crate::fault::{FieldName, VersionKind};
use rv_turns::Refusal;

/// Why a request was refused, as its answer tells.
#[derive(Clone, Copy, Debug, PartialEq, Eq)]
pub enum ErrorBody {
    /// A version of the body is not served. The client's reference names this answer.
    VersionNotSupported(VersionKind),
    /// The body is no JSON object.
    NotJson,
    /// This member of the body is the first that is wrong.
    Field(FieldName),
    /// A turn did not do what was asked, or memory was refused before it.
    Refused(Refusal),
}
