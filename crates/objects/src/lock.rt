//! The lock of an object.
ghost use Rattle.std.specs.Prelude.{◌≡◌};
ghost use Rattle.objects.specs.WaitersStand as waiting;
ghost use Rattle.objects.specs.Objects.{counted};

use model::{ObjectId, WaitList};

/// A locked object, and how often a task of each of its lists was woken since (`cTxLock`, `cRxLock`), counted up to 32.
#[derive(Clone, Copy, PartialEq, Eq)]
pub struct Lock {
    pub object: ObjectId,
    pub receivers: u8,
    pub senders: u8,
}

/// One more wake. No list has more than 32 tasks, so that the count stops there.
fn one_more(count: u8) -> u8
    ensures more { result ≡ waiting.one_more count }
{
    if count < 32 { count + 1 } else { count }
}

impl Lock {
    /// The lock with one more wake counted, if the list is one of the locked object's; otherwise `None`.
    pub(crate) fn counted(self, list: WaitList) -> Option<Lock>
        ensures counted { result ≡ counted list self }
    {
        match list {
            WaitList::ToReceive(object) if self.object.number == object.number => Some(Lock {
                receivers: one_more(self.receivers),
                ..self
            }),
            WaitList::ToSend(object) if self.object.number == object.number => Some(Lock {
                senders: one_more(self.senders),
                ..self
            }),
            _ => None,
        }
    }
}
