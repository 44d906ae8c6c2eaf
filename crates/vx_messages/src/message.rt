//! Which message belongs to which end.

ghost use Rattle.std.specs.Prelude.{◌≡◌};
ghost use Rattle.vx_messages.specs.Messages.{IsMessage, IsLine, first_line};

use crate::advice::{key_advice, refusal_advice};
use std::fmt::{self, Display, Formatter};
use std::str::from_utf8;
use vx_run::Status;

/// Why a run ended with another status than 0, and what to do.
#[derive(Clone, Copy, Debug, Drop)]
pub enum Message<'a> {
    /// The words are no command.
    Usage,
    /// The input is no job, as this line of the answer says by its key.
    BadJob(&'a str),
    /// The write or the layout is refused, as this line of the answer says by name.
    Refused(&'a str),
    /// The input failed.
    InputFault,
    /// The output failed.
    OutputFault,
    /// Memory ran out.
    OutOfMemory,
}

impl<'a> Message<'a> {
    /// The message for a status and the first bytes of its answer; none where all is done.
    pub fn of(status: Status, answer: &'a [u8]) -> Option<Message<'a>>
        ensures { IsMessage status answer.now result }
    {
        match status {
            Status::Done => None,
            Status::Usage => Some(Message::Usage),
            Status::BadJob => Some(Message::BadJob(line_of(answer))),
            Status::Refused => Some(Message::Refused(line_of(answer))),
            Status::InputFault => Some(Message::InputFault),
            Status::OutputFault => Some(Message::OutputFault),
            Status::OutOfMemory => Some(Message::OutOfMemory),
        }
    }
}

/// The first line of an answer.
fn line_of(answer: &[u8]) -> &str
    ensures { IsLine answer.now result.now }
{
    match from_utf8(answer) {
        Ok(text) => first_line(text),
        Err(_) => "",
    }
}

#[tactic(auto, using(crate::proofs::Kept::whole_line))]
fn first_line(text: &str) -> &str
    ensures { result.now ≡ first_line text.now }
{
    match text.split_once('\n') {
        Some((line, _)) => line,
        None => text,
    }
}

impl Display for Message<'_> {
    fn fmt<W: fmt::Write>(&self, f: &mut Formatter<W>) -> fmt::Result {
        match *self {
            Message::Usage => f.write_str(
                "one word says what to do with standard input: `write` and `columns` take a job and `tree` a layout (docs/JOB.md, examples/); `gen N` sums up a table of N rows, 1 to 1000000",
            ),
            Message::BadJob(line) => write!(f, "{line}: {}", key_advice(line)),
            Message::Refused(line) => write!(f, "{line}: {}", refusal_advice(line)),
            Message::InputFault => f.write_str("standard input couldn't be read"),
            Message::OutputFault => f.write_str(
                "standard output couldn't be written, so the answer is cut short",
            ),
            Message::OutOfMemory => f.write_str(
                "memory ran out, so the answer is missing or cut short",
            ),
        }
    }
}
