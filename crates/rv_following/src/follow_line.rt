use rv_base::User;
use rv_keeper::Cell;
use rv_turns::PullRequest;
use rv_wire::WireFault;

/// What a pull's body is: a pull, or the first thing that is wrong with it.
pub type ParsedPull = Result<PullRequest, WireFault>;

/// What a line of the form is.
#[derive(Debug, Drop)]
pub enum FollowLine {
    /// `{"cell":[SHELF,KEY,BODY]}`: a cell of the book that is followed.
    Cell(Cell),
    /// `{"page":true}`: the cells of the book's page stand before.
    Page,
    /// `{"user":U,"pull":V}`: a user pulls, and is answered.
    Pull {
        /// Who pulls.
        user: User,
        /// The body.
        pull: ParsedPull,
    },
}
