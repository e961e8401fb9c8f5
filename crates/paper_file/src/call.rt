// Which call a paper goes to.
ghost use Rattle.std.specs.Prelude.{◌≡◌};
ghost use Rattle.paper_file.specs.Calls.{call_for};

use word::head::Head;
use word::kind::{Kind, kind_of, payload};

// The calls that a paper may go to. Not `Head`, which names the case as well: no paper goes to that after the first.
#[derive(Clone, Copy, PartialEq, Eq, Debug)]
pub enum Call {
    Dispatch,
    Prices,
    Demand,
    Mark,
    Trial,
    HandOver,
}

// By the first word's head; a paper with no head of these goes in as a dispatch.
pub fn call_of(words: &[u32]) -> Call
    ensures { result ≡ call_for words.now }
{
    let Some(first) = words.first() else {
        return Call::Dispatch;
    };
    match (kind_of(*first), Head::of(payload(*first))) {
        (Kind::Head, Some(Head::Prices)) => Call::Prices,
        (Kind::Head, Some(Head::Demand)) => Call::Demand,
        (Kind::Head, Some(Head::Mark)) => Call::Mark,
        (Kind::Head, Some(Head::Trial)) => Call::Trial,
        (Kind::Head, Some(Head::HandOver)) => Call::HandOver,
        _ => Call::Dispatch,
    }
}
