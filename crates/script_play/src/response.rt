ghost use Rattle.std.specs.Prelude.{◌≡◌};
ghost use Rattle.script_play.specs.inside.StoreWorlds.{refusing_response};

use aw_cell::Text;
use ses_report::Refusal;
use ses_step::Answer;

/// What a line is answered.
#[derive(Clone, Copy)]
pub struct Response {
    /// The name of the session, or `*` where the line is of none.
    pub prefix: Text,
    pub answer: Answer,
}

impl Response {
    /// A refusal, under a prefix.
    pub fn refusing(prefix: Text, refusal: Refusal) -> Response
        ensures { result ≡ refusing_response prefix refusal }
    {
        Response {
            prefix,
            answer: Answer::Refused(refusal),
        }
    }
}
