/// What a net was asked for.
#[derive(Clone, Copy, Debug, PartialEq, Eq)]
pub struct Wanted {
    /// The port.
    pub port: u16,
    /// How many listeners.
    pub count: u32,
    /// How many connections each of them takes at most.
    pub most: u32,
}
