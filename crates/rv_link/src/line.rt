// A stream, as far as WebSocket has come on it.
ghost use Rattle.std.specs.Prelude.{◌≡◌, [], codes, Err, IfOk, IsErrOf, OnOk, Some};
ghost use Rattle.rv_base.specs.declared.fault.Fault.TheVariants as fault;
ghost use Rattle.rv_poke.specs.declared.first.First.TheVariants.{Other, Text};
ghost use Rattle.tungstenite.specs.Connection.{close_step, write_step};
ghost use Rattle.tungstenite.specs.Content.{ping, text};
ghost use Rattle.websocket.specs.CloseCode.{close_code_of};
ghost use Rattle.rv_link.specs.Sockets.{FailsToOpen, FailsToRead, IsBreach, IsGreeted, IsNoText, IsOpen, OpensWith, ReadsFirst, WritesStep};

use rv_base::{Bytes, Failed, Fault};
use rv_poke::First;
use std::alloc::Global;
use std::io::{self, Read, Write};
use std::mem;
use tungstenite::handshake::server;
use tungstenite::{
    CloseFrame, Error, HandshakeError, Message, NoCallback, NoMask, Utf8Bytes, WebSocket,
    WebSocketConfig,
};

// The most bytes of a client's message.
const MOST_BYTES: usize = 4096;

// How many messages are read at once at most, where the client is looked for.
const MOST_MESSAGES: usize = 64;

// How many bytes one read asks for, and at how many the output is written.
const BUFFER_BYTES: usize = 512;

/// A stream, as far as WebSocket has come on it.
#[derive(Drop)]
pub(crate) enum Line<S> {
    /// Its handshake is still to come.
    Fresh(S),
    /// Its handshake is done.
    Open(WebSocket<S, NoMask>),
    /// It is lost: its handshake failed.
    Lost,
}

// What is asked of a socket of this server.
fn config() -> WebSocketConfig
    ensures { result.max_message_size ≡ Some 4096 }
{
    WebSocketConfig::default()
        .read_buffer_size(BUFFER_BYTES)
        .write_buffer_size(BUFFER_BYTES)
        .max_message_size(Some(MOST_BYTES))
        .max_frame_size(Some(MOST_BYTES))
}

// The handshake of a server.
fn shake<S: Read + Write + Drop>(alloc: Global, stream: S) -> Result<WebSocket<S, NoMask>, Fault>
    ensures { IfOk result IsGreeted }
{
    match server::start(alloc, stream, NoCallback, Some(config())).handshake() {
        Ok(socket) => Ok(socket),
        Err(HandshakeError::Failure(Error::OutOfMemory)) => Err(Fault::Memory),
        Err(HandshakeError::Failure(_)) => Err(Fault::Failed),
        Err(HandshakeError::Interrupted(_)) => Err(Fault::Failed),
    }
}

// A text as a first message.
fn text_of(alloc: Global, words: &Utf8Bytes) -> Result<First, Fault>
    ensures text { IfOk result (λ first. first ≡ Text words.now) }
    ensures memory { ¬ IsErrOf result fault.Failed }
{
    match Vec::from_slice(alloc, words.as_str().as_bytes()) {
        Ok(bytes) => Ok(First::Text(Bytes::from_vec(bytes))),
        Err(_) => Err(Fault::Memory),
    }
}

// What is told where no message was read, for this error. A message that is too long and a text that is no UTF-8 are no texts.
fn unread(error: &Error) -> Result<First, Fault>
    ensures other { IfOk result (λ first. (first ≡ Other) × IsNoText (Err error.now)) }
    ensures fails { IsErrOf result fault.Failed → IsBreach error.now }
{
    match error {
        Error::Capacity(_) => Ok(First::Other),
        Error::Utf8 => Ok(First::Other),
        Error::OutOfMemory => Err(Fault::Memory),
        _ => Err(Fault::Failed),
    }
}

// The next message. One that is too long and a text that is no UTF-8 are no texts.
fn read<S: Read + Write + Drop>(
    alloc: Global,
    socket: &mut WebSocket<S, NoMask>,
) -> Result<First, Fault>
    ensures reads { IfOk result (ReadsFirst S.remaining socket.old socket.new) }
    ensures fails { IsErrOf result fault.Failed → FailsToRead S.remaining socket.old socket.new }
{
    match socket.read() {
        Ok(Message::Text(words)) => text_of(alloc, &words),
        Ok(Message::Binary(_)) => Ok(First::Other),
        Ok(Message::Ping(_)) => Ok(First::Other),
        Ok(Message::Pong(_)) => Ok(First::Other),
        Ok(Message::Close(_)) => Ok(First::Other),
        Err(error) => unread(&error),
    }
}

impl<S: Read + Write + Drop> Line<S> {
    /// Does the handshake of a stream that is fresh, and gives its first message.
    pub(crate) fn first(&mut self, alloc: Global) -> Result<First, Fault>
        ensures opens { IfOk result (OpensWith S.remaining self.old self.new) }
        ensures fails { IsErrOf result fault.Failed → FailsToOpen S.remaining self.old self.new }
    {
        let Line::Fresh(stream) = mem::replace(self, Line::Lost) else {
            return Err(Fault::Failed);
        };
        let mut socket = shake(alloc, stream)?;
        let first = read(alloc, &mut socket);
        *self = Line::Open(socket);
        first
    }

    /// Sends the text `poke`.
    pub(crate) fn send_poke(&mut self) -> Result<(), Failed>
        ensures { OnOk result (WritesStep S.contents (λ conn. write_step conn (text (codes "poke"))) self.old self.new) }
    {
        let Line::Open(socket) = self else {
            return Err(Failed);
        };
        match socket.send(Message::Text(Utf8Bytes::from_static("poke"))) {
            Ok(()) => Ok(()),
            Err(_) => Err(Failed),
        }
    }

    /// Sends a ping without a payload.
    pub(crate) fn ping(&mut self) -> Result<(), Failed>
        ensures { OnOk result (WritesStep S.contents (λ conn. write_step conn (ping [])) self.old self.new) }
    {
        let Line::Open(socket) = self else {
            return Err(Failed);
        };
        match socket.send(Message::Ping(tungstenite::Bytes::new())) {
            Ok(()) => Ok(()),
            Err(_) => Err(Failed),
        }
    }

    /// Reads what the client has sent, as far as its stream gives it at once, up to 64 messages, and lets go of it. Answers whether that
    /// was all of it. It fails where that is a close or the end of the stream, or breaks the protocol, where reading fails, and where the
    /// line isn't open.
    pub(crate) fn find(&mut self) -> Result<bool, Failed>
        ensures { OnOk result (IsOpen self.new) }
    {
        let Line::Open(socket) = self else {
            return Err(Failed);
        };
        for _message in 0..MOST_MESSAGES {
            match socket.read() {
                Ok(Message::Close(_)) => return Err(Failed),
                Ok(_) => {}
                Err(Error::Io(error)) if error.kind() == io::ErrorKind::WouldBlock => {
                    return Ok(true);
                }
                Err(_) => return Err(Failed),
            }
        }
        Ok(false)
    }

    /// Sends a close with a status code and no reason.
    pub(crate) fn close(&mut self, code: u16) -> Result<(), Failed>
        ensures { OnOk result (WritesStep S.contents (λ conn. close_step conn (Some (close_code_of code, []))) self.old self.new) }
    {
        let Line::Open(socket) = self else {
            return Err(Failed);
        };
        let frame = CloseFrame {
            code: code.into(),
            reason: Utf8Bytes::from_static(""),
        };
        match socket.close(Some(frame)) {
            Ok(()) => Ok(()),
            Err(_) => Err(Failed),
        }
    }
}
