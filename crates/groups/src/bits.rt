//! What bits meet, and what is left of them.
ghost use Rattle.std.specs.Prelude.{◌≡◌};
ghost use Rattle.model.specs.Groups as definitions;

use model::Condition;

/// Whether these bits have all of the condition's, or any (`prvTestWaitCondition`).
pub(crate) fn is_met(bits: u32, condition: &Condition) -> bool
    ensures met { result ≡ definitions.is_met bits condition.now }
{
    let common = bits & condition.mask;
    if condition.all {
        common == condition.mask
    } else {
        0 < common
    }
}

/// The bits without those of a mask.
pub(crate) fn bits_without(bits: u32, mask: u32) -> u32
    ensures left { result ≡ definitions.bits_without bits mask }
{
    bits & !mask
}

/// The bits that a task leaves whose condition is met, and who may have asked to clear them (`xClearOnExit`).
pub(crate) fn bits_left(bits: u32, condition: &Condition) -> u32
    ensures left { result ≡ definitions.bits_left bits condition.now }
{
    if condition.clear {
        bits_without(bits, condition.mask)
    } else {
        bits
    }
}
