//! Where the texts arrive that renderers hand on.
ghost use Rattle.std.specs.Prelude.{◌≡◌, ◌<◌, length, IfSome};
ghost use Rattle.rows.specs.declared.rendering.renderer.Rendering as declared;
ghost use Rattle.rows.specs.Pieces.{GoesOn, GoOn, HasReceived, HaveReceived, IsRight};

use crate::rendering::renderer::Rendered;
use byte_io::Buffer;
use rtrb::{Consumer, Producer};

/// Where the texts of a renderer arrive, and from where its buffers go back to it.
#[derive(Drop)]
pub(crate) struct Inbox {
    pub(crate) rendered: Consumer<Rendered>,
    pub(crate) empty: Producer<Buffer>,
}

impl Inbox {
    // The text of the piece of this number, if it is the next one here.
    fn take(&mut self, number: usize) -> Option<Rendered>
        ensures inbox { GoesOn self.old self.new }
        ensures number { IfSome result (λ text. text.number ≡ number) }
        ensures right { IfSome result (λ text. (rendering : declared.Rendering) → HasReceived rendering self.new → IsRight rendering text) }
    {
        if self.rendered.is_empty() || self.rendered.peek_known().number != number {
            return None;
        }
        Some(self.rendered.pop_known())
    }

    // Gives a buffer back.
    fn give_back(&mut self, buffer: Buffer)
        ensures { self.new.rendered ≡ self.old.rendered }
    {
        // There is room, since it came from there.
        let _given = self.empty.push(buffer);
    }
}

/// A text that arrived, and the number of the inbox at which it did.
#[derive(Drop)]
pub(crate) struct Arrived {
    pub(crate) text: Rendered,
    pub(crate) inbox: usize,
}

/// The text of the piece of this number, if it has arrived.
pub(crate) fn take_from(inboxes: &mut [Inbox], number: usize) -> Option<Arrived>
    ensures inboxes { GoOn inboxes.old inboxes.new }
    ensures inbox { IfSome result (λ arrived. arrived.inbox < length inboxes.new) }
    ensures number { IfSome result (λ arrived. arrived.text.number ≡ number) }
    ensures right { IfSome result (λ arrived. (rendering : declared.Rendering) → HaveReceived rendering inboxes.new → IsRight rendering arrived.text) }
{
    for inbox in 0..inboxes.len() {
        if let Some(text) = inboxes[inbox].take(number) {
            return Some(Arrived { text, inbox });
        }
    }
    None
}

/// Gives a buffer back to the renderer of this inbox.
pub(crate) fn give_back(inboxes: &mut [Inbox], inbox: usize, buffer: Buffer)
    requires { inbox < length inboxes.old }
    ensures { GoOn inboxes.old inboxes.new }
{
    inboxes[inbox].give_back(buffer);
}
