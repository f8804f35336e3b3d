/// Where the requests of one worker pass. It may hold a request, and hears of its answer, and that the worker leaves.
pub trait Gate: Drop {
    ghost use Rattle.std.specs.Prelude.{List, [], ◌∷◌, Option};
    ghost use Rattle.rv_serve.specs.Hearing.{Hears};
    ghost use Rattle.rv_serve.specs.declared.heard.Heard.{Heard};
    ghost use Rattle.rv_serve.specs.declared.heard.Heard.TheVariants.{Before, After, Left};

    /// What it has heard, in order, where it tells.
    ghost heard: { Self → Option (List Heard) };

    /// A request was read, a connection's so many-th, from 1. It may wait before the request is answered.
    fn before(&mut self, number: u32)
        ensures { Hears (heard self.old) (heard self.new) (Before number ∷ []) };

    /// The request was answered with this status; and a mutation was run for it, or what had been in doubt was entered in its turns, or
    /// neither was.
    fn after(&mut self, status: u16, entered: bool)
        ensures { Hears (heard self.old) (heard self.new) (After status entered ∷ []) };

    /// The worker has served all its connections, and leaves.
    fn leave(&mut self)
        ensures { Hears (heard self.old) (heard self.new) (Left ∷ []) };
}

/// A gate that holds no request, and tells nothing.
#[derive(Debug, Drop)]
pub struct OpenGate;

impl Gate for OpenGate {
    ghost use Rattle.std.specs.Prelude.{None};

    ghost heard = { λ gate. None };

    fn before(&mut self, _number: u32) {}

    fn after(&mut self, _status: u16, _entered: bool) {}

    fn leave(&mut self) {}
}
