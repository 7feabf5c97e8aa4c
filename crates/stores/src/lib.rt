// CODE. What a call has come to before dispatch, the record that send stores, and beneath them (specs/) what code stores for each
// call, as one list of bytes after another. Contracts of code cite this crate; that the stores come to document 01's effects is proved above
// it (stored), so no reader needs to believe it.
#![tactic(auto)]

pub mod addressed;

ghost use Rattle.std.specs.Prelude.{◌≡◌, Some, None};
ghost use Rattle.stores.specs.Answers.{with_nobody};

use board::numbers::{MsgNo, TaskNo};
use paper::answer::{Accepted, Answer, Refusal};

// The running task and a message that it holds.
#[derive(Clone, Copy, Debug, PartialEq, Eq)]
pub struct Held {
    pub c: TaskNo,
    pub m: MsgNo,
}

// A call's body was done, with this value; of the tasks other than the one that calls it changed the status of this one at most.
#[derive(Clone, Copy, Debug, PartialEq, Eq)]
pub struct Done {
    pub value: u16,
    pub stirred: Option<TaskNo>,
}

impl Done {
    // Nobody else has changed.
    pub fn rests(value: u16) -> Done
        ensures { result ≡ record { value = value; stirred = None } }
    {
        Done {
            value,
            stirred: None,
        }
    }

    // Task k has, at most.
    pub fn stirs(k: TaskNo) -> Done
        ensures { result ≡ record { value = 0; stirred = Some k } }
    {
        Done {
            value: 0,
            stirred: Some(k),
        }
    }
}

pub type Body = Result<Done, Refusal>;

// The answer where nobody is dispatched.
pub fn with_nobody(body: Body) -> Answer
    ensures { result ≡ with_nobody body }
{
    let done = body?;
    Ok(Accepted {
        value: done.value,
        running: 0,
        delivered: 0,
    })
}
