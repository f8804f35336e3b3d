use rv_answering::Answer;
use rv_http::Rejection;

/// What a request is answered over HTTP.
#[derive(Debug, Drop)]
pub enum HttpAnswer {
    /// What it asks was answered so.
    Answered(Answer),
    /// It was rejected before its body was looked at.
    Rejected(Rejection),
}

impl HttpAnswer {
    ghost use Rattle.std.specs.Prelude.{◌≡◌};
    ghost use Rattle.rv_serve.specs.Texts.{http_status};

    /// The status of the response.
    pub fn status(&self) -> u16
        ensures { result ≡ http_status self.now }
    {
        match self {
            HttpAnswer::Answered(answer) => answer.status(),
            HttpAnswer::Rejected(rejection) => rejection.status(),
        }
    }
}

/// What a request is answered over HTTP, and whether its turns entered what others may have to be told of.
#[derive(Debug, Drop)]
pub struct HttpAnswered {
    /// The answer.
    pub answer: HttpAnswer,
    /// Whether a mutation was run, or what had been in doubt was entered.
    pub entered: bool,
}
