ghost use Rattle.std.specs.Prelude.{◌≡◌, true};
ghost use Rattle.rv_http.specs.Rejections.{rejection_body, rejection_status};
ghost use Rattle.rv_http.specs.Responses.{is_status};

/// Why a request is rejected before its body is looked at.
#[derive(Clone, Copy, Debug, PartialEq, Eq)]
pub enum Rejection {
    /// The head of the request, or its Content-Length, is not of the form.
    BadHead,
    /// No account has the request's key. The client's reference names this status, at which a client asks for fresh credentials.
    Unauthorized,
    /// Nothing is served at the path.
    NoRoute,
    /// The path is served for another method.
    OtherMethod,
    /// A body is to come, and its length is not said.
    LengthRequired,
    /// The body has more bytes than are taken.
    BodyTooLarge,
    /// The head has more bytes or fields than are taken.
    HeadTooLarge,
    /// The body is sent in a coding that is not served.
    CodingNotServed,
}

impl Rejection {
    /// The status of the response.
    pub fn status(self) -> u16
        ensures value { result ≡ rejection_status self }
        ensures served { is_status result ≡ true }
    {
        match self {
            Rejection::BadHead => 400,
            Rejection::Unauthorized => 401,
            Rejection::NoRoute => 404,
            Rejection::OtherMethod => 405,
            Rejection::LengthRequired => 411,
            Rejection::BodyTooLarge => 413,
            Rejection::HeadTooLarge => 431,
            Rejection::CodingNotServed => 501,
        }
    }

    /// The JSON body of the response.
    pub fn body(self) -> &'static str
        ensures { result.now ≡ rejection_body self }
    {
        match self {
            Rejection::BadHead => "{\"error\":\"BadHead\"}",
            Rejection::Unauthorized => "{\"error\":\"Unauthorized\"}",
            Rejection::NoRoute => "{\"error\":\"NoRoute\"}",
            Rejection::OtherMethod => "{\"error\":\"OtherMethod\"}",
            Rejection::LengthRequired => "{\"error\":\"LengthRequired\"}",
            Rejection::BodyTooLarge => "{\"error\":\"BodyTooLarge\"}",
            Rejection::HeadTooLarge => "{\"error\":\"HeadTooLarge\"}",
            Rejection::CodingNotServed => "{\"error\":\"CodingNotServed\"}",
        }
    }
}
