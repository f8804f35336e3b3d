// What the crate `sqlite` keeps true of each connection between its calls.
ghost use Rattle.sqlite.specs.Held.{IsConnected};

use sqlite::{Alter, Connection};

/// Tells what holds of the connection. It does nothing when it runs.
pub(crate) fn recall<S: Alter>(connection: &Connection<S>)
    ensures { IsConnected (S.Store.view connection.now.store) (S.Store.recovers connection.now.store) connection.now.schema connection.now.saved connection.now.in_transaction }
{}
