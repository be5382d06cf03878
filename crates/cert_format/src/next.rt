//! What has to come next in a certificate.

ghost use Rattle.std.specs.Prelude.{◌≡◌, IfNone};
ghost use Rattle.cert_format.specs.Progress.{next_with};
ghost use Rattle.cert_format.specs.inner.LineReads.{IsAwaited, ending_at, told_at};

use crate::event::Event;
use crate::reading::Ending;

/// What has to come next, or where the text broke. Lines are counted from 1.
#[derive(Clone, Copy, Debug)]
pub(crate) enum Next {
    /// The first line.
    Head,
    /// The bound.
    Bound,
    /// So many subtrees, and then the last line.
    Subtrees(u64),
    /// Nothing.
    Nothing,
    /// Whatever comes, this line was of no form, or came where another had to be.
    BadForm(u64),
    /// Whatever comes, bytes stand behind the line `end`, as the line with this number.
    Tail(u64),
}

/// How a text ends, where this has to come, as the line with a number.
pub(crate) fn ending_at(next: Next, number: u64) -> Ending
    ensures { result ≡ ending_at next number }
{
    match next {
        Next::Nothing => Ending::Whole,
        Next::BadForm(line) => Ending::BadForm(line),
        Next::Tail(line) => Ending::Tail(line),
        Next::Head | Next::Bound | Next::Subtrees(_) => Ending::BadForm(number),
    }
}

/// What has to come behind bytes, where this has to come and a line has a number: where nothing may come they break the text.
pub(crate) fn next_with(next: Next, number: u64, bytes: &[u8]) -> Next
    ensures { result ≡ next_with next number bytes.now }
{
    match next {
        Next::Nothing if !bytes.is_empty() => Next::Tail(number),
        next => next,
    }
}

/// What bytes tell where no line has to come; nothing where one has to.
pub(crate) fn told_at(next: Next) -> Option<Event>
    ensures told { result ≡ told_at next }
    ensures awaited { IfNone result (IsAwaited next) }
{
    match next {
        Next::Nothing => Some(Event::More),
        Next::BadForm(line) => Some(Event::BadForm(line)),
        Next::Tail(line) => Some(Event::Tail(line)),
        Next::Head | Next::Bound | Next::Subtrees(_) => None,
    }
}
