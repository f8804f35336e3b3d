/// What comes next of a source of lines.
#[derive(Clone, Copy, Debug, PartialEq, Eq)]
pub enum Next {
    /// A line that ends at an LF.
    Line,
    /// A line that ends with the input, and isn't empty.
    Last,
    /// The end.
    End,
    /// A line that is too long: more than 4,195,328 bytes, its LF not counted.
    TooLong,
}
