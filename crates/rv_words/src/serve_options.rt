use crate::name::Name;

/// How the requests of connections are served: the values of `--accounts`, `--port`, `--workers` and `--connections`, and
/// of `--poke-port` and `--pokes`, which may be left out and are then 8091 and 0.
#[derive(Debug, Drop)]
pub struct ServeOptions {
    /// The name of the accounts file.
    pub accounts: Name,
    /// The port at which connections are accepted, from 1 to 65,535.
    pub port: u16,
    /// How many workers serve connections side by side, from 1 to 16.
    pub workers: u32,
    /// The most connections that each worker accepts, from 1 to 1,000,000.
    pub connections: u32,
    /// The port at which the links of clients that want pokes are accepted, from 1 to 65,535.
    pub poke_port: u16,
    /// How many poke jobs serve links side by side, from 0 to 16. With 0 nothing listens at the port for pokes.
    pub pokes: u32,
}
