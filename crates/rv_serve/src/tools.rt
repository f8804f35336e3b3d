ghost use Rattle.std.specs.Prelude.{◌≡◌, [], IfOk};

use rv_base::Memory;
use rv_http::{Buffer, Routes};
use std::alloc::Global;

/// What serving a connection takes: the space for what is read ahead, and the routes. They are made once, and serve one connection
/// after the other.
#[derive(Drop)]
pub(crate) struct Tools {
    pub(crate) buffer: Buffer,
    pub(crate) routes: Routes,
}

impl Tools {
    fn new(alloc: Global) -> Result<Tools, Memory>
        ensures { IfOk result (λ tools. tools.buffer ≡ []) }
    {
        let buffer = Buffer::new(alloc)?;
        let routes = Routes::new(alloc)?;
        Ok(Tools { buffer, routes })
    }

    // The same, without the bytes of a connection.
    fn cleared(mut self) -> Tools
        ensures { result.buffer ≡ [] }
    {
        self.buffer.clear();
        self
    }

    /// Tools for the next connection: these, or new ones where there are none.
    pub(crate) fn ready(alloc: Global, tools: Option<Tools>) -> Result<Tools, Memory>
        ensures { IfOk result (λ tools. tools.buffer ≡ []) }
    {
        match tools {
            Some(tools) => Ok(tools.cleared()),
            None => Tools::new(alloc),
        }
    }
}
