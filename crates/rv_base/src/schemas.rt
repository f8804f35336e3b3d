use crate::sequence::Sequence;

/// The schema versions of the application that are served, one after another.
pub type Schemas = Sequence<String>;
