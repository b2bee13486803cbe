//! Renderers and their inboxes.
ghost use Rattle.std.specs.Prelude.{◌≡◌, ◌<◌, [], ◌∷◌, vec_len, IfOk};
ghost use Rattle.rtrb.specs.Ring.{sent, IsPair};
ghost use Rattle.rows.specs.Pieces.{AreFresh, ArePairs};

use crate::rendering::inbox::Inbox;
use crate::rendering::renderer::{Rendered, Renderer};
use byte_io::Buffer;
use model::Memory;
use rtrb::RingBuffer;
use std::alloc::Global;

// Each renderer has this many buffers: one that it fills, and others that are on their way.
const BUFFERS: usize = 3;

/// The renderer of the thread that writes, those of others, and for each of them the inbox at which its texts arrive.
#[derive(Drop)]
pub(crate) struct Lanes {
    pub(crate) own: Renderer,
    pub(crate) others: Vec<Renderer>,
    pub(crate) inboxes: Vec<Inbox>,
}

// A renderer that has handed nothing on, and its inbox.
fn lane(alloc: Global, most: usize) -> Result<(Renderer, Inbox), Memory>
    ensures pair { IfOk result (λ lane. IsPair lane.0.rendered lane.1.rendered) }
    ensures fresh { IfOk result (λ lane. sent lane.0.rendered ≡ []) }
{
    let Ok((mut give, empty)) = RingBuffer::<Buffer>::new(alloc, BUFFERS) else {
        return Err(Memory);
    };
    let Ok((rendered, arrived)) = RingBuffer::<Rendered>::new(alloc, BUFFERS) else {
        return Err(Memory);
    };
    for _ in 0..BUFFERS {
        // There is room for this many.
        let _given = give.push(Buffer::new(alloc, most));
    }
    let renderer = Renderer { empty, rendered };
    let inbox = Inbox {
        rendered: arrived,
        empty: give,
    };
    Ok((renderer, inbox))
}

/// This many renderers of texts of at most this many bytes, and their inboxes.
pub(crate) fn lanes_of(alloc: Global, count: usize, most: usize) -> Result<Lanes, Memory>
    requires { 0 < count }
    ensures count { IfOk result (λ lanes. vec_len lanes.inboxes ≡ count) }
    ensures pairs { IfOk result (λ lanes. ArePairs (lanes.own ∷ lanes.others.items) lanes.inboxes.items) }
    ensures fresh { IfOk result (λ lanes. AreFresh (lanes.own ∷ lanes.others.items)) }
{
    let (own, inbox) = lane(alloc, most)?;
    let mut others = Vec::new(alloc);
    let mut inboxes = vec![in alloc; inbox]?;
    while inboxes.len() < count {
        let (renderer, inbox) = lane(alloc, most)?;
        others.push(renderer)?;
        inboxes.push(inbox)?;
    }
    Ok(Lanes {
        own,
        others,
        inboxes,
    })
}
