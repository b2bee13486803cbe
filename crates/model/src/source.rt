//! What ops do to interrupt sources: whether their interrupts can come, and when a device interrupts.

/// What an op does to an interrupt handler (profile).
#[derive(Clone, Copy, PartialEq, Eq)]
pub enum SourceOp {
    /// Arms it: it can come if it is injected (`NVIC_EnableIRQ`).
    Arm,
    /// Disarms it: it can't (`NVIC_DisableIRQ`).
    Disarm,
    /// Raises it: it comes this many ticks from now, 1 to 1,000,000, and not when it was to come before.
    Raise(u32),
    /// Cancels that: it isn't raised any more.
    Cancel,
}

impl SourceOp {
    ghost use Rattle.std.specs.Prelude.{◌≡◌};
    ghost use Rattle.model.specs.Words.{word_of_source_op};
    ghost use Rattle.model.specs.Scripts.{is_near};

    /// The most ticks after which a raised handler comes (profile).
    pub const MOST_TICKS: u32 = 1_000_000;

    /// The first word of the op's text.
    pub fn word(&self) -> &'static str
        ensures { result.now ≡ word_of_source_op self.now }
    {
        match *self {
            SourceOp::Arm => "arm",
            SourceOp::Disarm => "disarm",
            SourceOp::Raise(_) => "raise",
            SourceOp::Cancel => "cancel",
        }
    }

    /// Whether its numbers are in their ranges.
    pub fn is_in_range(&self) -> bool
        ensures { result ≡ is_near self.now }
    {
        match *self {
            SourceOp::Raise(ticks) => 1 <= ticks && ticks <= Self::MOST_TICKS,
            _ => true,
        }
    }
}
