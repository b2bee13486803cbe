//! What a script asks of the last answer.
ghost use Rattle.std.specs.Prelude.{◌≡◌};
ghost use Rattle.model.specs.Answers.{holds, equals};

use crate::value::Value;

/// What `expect` and `if` ask of the last answer, which is a number or `none` (profile).
#[derive(Clone, Copy, PartialEq, Eq)]
pub enum AnswerCondition {
    /// It is this one; `None` is the answer `none`.
    Is(Option<Value>),
    /// It is not this one.
    IsNot(Option<Value>),
    /// It is a number below this one.
    Below(Value),
    /// It is a number above this one.
    Above(Value),
}

impl AnswerCondition {
    /// Whether it holds of this answer, by these variables.
    // It is lent, as its values are.
    #[inline]
    pub fn holds(&self, variables: &[u32], answer: Option<u32>) -> bool
        ensures { result ≡ holds variables.now self.now answer }
    {
        match *self {
            AnswerCondition::Is(ref wanted) => equals(wanted, variables, answer),
            AnswerCondition::IsNot(ref other) => !equals(other, variables, answer),
            AnswerCondition::Below(ref bound) => match answer {
                Some(number) => number < bound.number(variables, answer),
                None => false,
            },
            AnswerCondition::Above(ref bound) => match answer {
                Some(number) => number > bound.number(variables, answer),
                None => false,
            },
        }
    }
}

// Whether the answer is this value; `None` is the answer `none`.
#[inline(always)]
fn equals(wanted: &Option<Value>, variables: &[u32], answer: Option<u32>) -> bool
    ensures { result ≡ equals variables.now answer wanted.now }
{
    match *wanted {
        Some(ref value) => answer == value.get(variables, answer),
        None => answer.is_none(),
    }
}
