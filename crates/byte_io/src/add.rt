//! Adding to a page before a sink: what does not fit goes to the sink first.
//!
//! Each function requires that the sink has not failed. At `Err` the sink has failed, it has taken a beginning of the page's
//! bytes and what was added, and the page is of no more use.
ghost use Rattle.std.specs.Prelude.{◌≡◌, ◌≤◌, ◌+◌, false, [], length, OnOk, OnErr, MatchResult};
ghost use Rattle.std.specs.Result.{is_err};
ghost use Rattle.byte_io.specs.Bytes.{Sent, SentFront, Writes, Adds};

use crate::page::Page;
use crate::put::{WriteFault, put_all};
use crate::stream::Sink;

// A text that is longer than this goes to the sink as it is: to copy it takes longer than the call for it, and the one for what the page
// holds, which is then sent sooner.
const MOST_COPIED: usize = 12288;

/// Puts the bytes of the page, and empties it. At `Err` the sink failed or took none of some bytes, it has taken a
/// beginning of the page's bytes, and the page is as it was.
pub fn flush<W: Sink>(writer: &mut W, page: &mut Page) -> Result<(), WriteFault>
    requires { W.has_failed writer.old ≡ false }
    ensures text { Writes (W.held writer.old) (W.held writer.new) result page.old }
    ensures empty { OnOk result (page.new ≡ []) }
    ensures kept { OnErr result (page.new ≡ page.old) }
    ensures failed { W.has_failed writer.new ≡ is_err result }
{
    put_all(writer, page.bytes())?;
    page.clear();
    Ok(())
}

/// Makes room in the page for this many bytes: if they don't fit, what the page holds goes to the
/// sink.
#[tactic(auto, using(crate::proofs::Sending::Sent_none, crate::proofs::Sending::Sent_all))]
pub fn make_room<W: Sink>(writer: &mut W, page: &mut Page, count: usize) -> Result<(), WriteFault>
    requires working { W.has_failed writer.old ≡ false }
    requires fits { count ≤ Page.SIZE }
    ensures sent { MatchResult result
        (λ _. Sent (W.held writer.old) (W.held writer.new) page.old page.new)
        (λ _. SentFront (W.held writer.old) (W.held writer.new) page.old) }
    ensures room { OnOk result (length page.new + count ≤ Page.SIZE) }
    ensures failed { W.has_failed writer.new ≡ is_err result }
{
    if page.has_room(count) {
        return Ok(());
    }
    flush(writer, page)
}

/// Adds a text of any length. A long one goes to the sink as it is.
pub fn add_text<W: Sink>(writer: &mut W, page: &mut Page, text: &[u8]) -> Result<(), WriteFault>
    requires { W.has_failed writer.old ≡ false }
    ensures text { Adds (W.held writer.old) (W.held writer.new) page.old page.new result text.now }
    ensures failed { W.has_failed writer.new ≡ is_err result }
{
    if text.len() > MOST_COPIED {
        flush(writer, page)?;
        return put_all(writer, text);
    }
    make_room(writer, page, text.len())?;
    page.push_text(text);
    Ok(())
}
