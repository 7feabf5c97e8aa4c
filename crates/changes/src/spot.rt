// The walk that looks for a spot in a queue, of messages or of tasks alike. It follows at most so many links, whatever the bytes are:
// each caller passes the paper's number, that of the messages.
ghost use Rattle.std.specs.Prelude.{None};
ghost use Rattle.changes.specs.Spots.{Walks};

// The last one passed and the one stopped at, if any.
#[derive(Clone, Copy)]
pub struct Spot<N> {
    pub prev: Option<N>,
    pub cur: Option<N>,
}

// From the first, along next, to the first that stops is true of; at most so many links.
pub fn seek<N: Copy, F: Fn(N) -> Option<N>, S: Fn(N) -> bool>(
    most: u16,
    first: Option<N>,
    next: F,
    stops: S,
) -> Spot<N>
    requires goes_on { F.IsAlwaysCallable next }
    requires tests { S.IsAlwaysCallable stops }
    ensures { Walks (F.post next) (S.post stops) most None first result }
{
    let mut at = Spot {
        prev: None,
        cur: first,
    };
    for _ in 0..most {
        let Some(x) = at.cur else {
            break;
        };
        if stops(x) {
            break;
        }
        at = Spot {
            prev: at.cur,
            cur: next(x),
        };
    }
    at
}
