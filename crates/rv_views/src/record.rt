ghost use Rattle.std.specs.Prelude.{◌≡◌, IfOk};
ghost use Rattle.rv_views.specs.Viewed.{AreSeen, AreClients};

use rv_base::{Id, Memory, Num};
use rv_rows::{Clients, Key, Visible};
use std::marker::Model;

/// What a client group was shown: the keys that its user saw, each with the version of its row, and the group's clients,
/// each with its last mutation id.
#[derive(Debug, Drop)]
pub struct ViewRecord {
    rows: Visible,
    clients: Clients,
}

impl Model for ViewRecord {
    ghost use Rattle.rv_views.specs.Viewed.{Viewed, AreSeen, AreClients};

    ghost Value = { Viewed };

    ghost view = { λ r. record { rows = r.rows; clients = r.clients } };

    ghost invariant = { λ r. AreSeen r.rows × AreClients r.clients };
}

/// The record of what is seen now. It keeps both lists as they are. It takes no memory, so it always answers a record: the
/// `Result` is that of its signature.
pub fn record_now(visible: Visible, clients: Clients) -> Result<ViewRecord, Memory>
    requires rows { AreSeen visible }
    requires clients { AreClients clients }
    ensures { IfOk result (λ r. (r.rows ≡ visible) × (r.clients ≡ clients)) }
{
    Ok(ViewRecord {
        rows: visible,
        clients,
    })
}

impl ViewRecord {
    /// The keys that were seen, in order, each with the version of its row.
    pub fn rows(&self) -> &[(Key, u32)]
        ensures list { result.now ≡ self.now.rows }
        ensures order { AreSeen self.now.rows }
    {
        self.rows.as_slice()
    }

    /// The group's clients, in order, each with its last mutation id.
    pub fn clients(&self) -> &[(Id, Num)]
        ensures list { result.now ≡ self.now.clients }
        ensures order { AreClients self.now.clients }
    {
        self.clients.as_slice()
    }
}
