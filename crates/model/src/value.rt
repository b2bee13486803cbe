//! Values of a script: what its ops calculate with, and what they send, mark and compare.
use crate::ids::VariableId;

/// A value, as a script spells it (profile).
#[derive(Clone, Copy, PartialEq, Eq)]
pub enum Value {
    /// This number.
    Number(u32),
    /// The last answer, which may be `none`.
    Answer,
    /// What this variable is now.
    Variable(VariableId),
}

impl Value {
    ghost use Rattle.std.specs.Prelude.{◌≡◌};
    ghost use Rattle.model.specs.Values.{is_missing, number_of, value_of};

    /// The value by these variables and this last answer; `None` if it is the last answer, and that is `none`.
    // It is lent, and so never copied to a place on the stack.
    #[inline(always)]
    pub fn get(&self, variables: &[u32], answer: Option<u32>) -> Option<u32>
        ensures { result ≡ value_of variables.now answer self.now }
    {
        match *self {
            Value::Number(number) => Some(number),
            Value::Answer => answer,
            Value::Variable(variable) => Some(variable.get(variables)),
        }
    }

    /// Whether it is the last answer, and that is `none`.
    #[inline]
    pub fn is_missing(self, answer: Option<u32>) -> bool
        ensures { result ≡ is_missing answer self }
    {
        matches!(self, Value::Answer) && answer.is_none()
    }

    /// The same number as that of `get`; 0 if there is none.
    #[inline(always)]
    pub fn number(&self, variables: &[u32], answer: Option<u32>) -> u32
        ensures { result ≡ number_of variables.now answer self.now }
    {
        self.get(variables, answer).unwrap_or(0)
    }
}

impl VariableId {
    ghost use Rattle.std.specs.Prelude.{◌≡◌};
    ghost use Rattle.model.specs.Values.{variable_in};

    /// This one of these variables; 0 if there is none.
    #[inline]
    pub fn get(self, variables: &[u32]) -> u32
        ensures { result ≡ variable_in variables.now self.number }
    {
        match variables.get(self.number as usize) {
            Some(value) => *value,
            None => 0,
        }
    }
}

/// What an op calculates of two numbers, modulo 2^32 (profile).
#[derive(Clone, Copy, PartialEq, Eq)]
pub enum Arithmetic {
    /// The sum.
    Add,
    /// The difference.
    Sub,
    /// The product.
    Mul,
    /// The quotient, rounded down; by 0 there is none.
    Div,
    /// The remainder; by 0 there is none.
    Mod,
    /// The bits that both have.
    And,
    /// The bits that one of them has.
    Or,
    /// The bits that just one of them has.
    Xor,
}

impl Arithmetic {
    ghost use Rattle.std.specs.Prelude.{◌≡◌};
    ghost use Rattle.model.specs.Values.{computed};
    ghost use Rattle.model.specs.Words.{word_of_arithmetic};

    /// What it makes of these two; `None` for a quotient or a remainder by 0.
    #[inline]
    pub fn of(self, a: u32, b: u32) -> Option<u32>
        ensures { result ≡ computed self a b }
    {
        match self {
            Arithmetic::Add => Some(a.wrapping_add(b)),
            Arithmetic::Sub => Some(a.wrapping_sub(b)),
            Arithmetic::Mul => Some(a.wrapping_mul(b)),
            Arithmetic::Div => a.checked_div(b),
            Arithmetic::Mod => a.checked_rem(b),
            Arithmetic::And => Some(a & b),
            Arithmetic::Or => Some(a | b),
            Arithmetic::Xor => Some(a ^ b),
        }
    }

    /// The word with which its text begins.
    pub fn word(self) -> &'static str
        ensures { result.now ≡ word_of_arithmetic self }
    {
        match self {
            Arithmetic::Add => "add",
            Arithmetic::Sub => "sub",
            Arithmetic::Mul => "mul",
            Arithmetic::Div => "div",
            Arithmetic::Mod => "mod",
            Arithmetic::And => "and",
            Arithmetic::Or => "or",
            Arithmetic::Xor => "xor",
        }
    }
}

/// An op on values: each returns a number, unless it has none to work with (profile).
#[derive(Clone, Copy, PartialEq, Eq)]
pub enum ValueOp {
    /// Returns what the variable is.
    Load(VariableId),
    /// The variable becomes this value, which is the answer.
    Store(VariableId, Value),
    /// Calculates with the last answer and this value.
    Compute(Arithmetic, Value),
}

impl ValueOp {
    ghost use Rattle.std.specs.Prelude.{◌≡◌};
    ghost use Rattle.model.specs.Scripts.{is_defined};
    ghost use Rattle.model.specs.Values.{answer_of};
    ghost use Rattle.model.specs.Words.{word_of_value_op};

    /// What it returns by these variables and this last answer; `None` if it has no value, and isn't done.
    #[inline]
    pub fn answer(self, variables: &[u32], answer: Option<u32>) -> Option<u32>
        ensures { result ≡ answer_of variables.now answer self }
    {
        match self {
            ValueOp::Load(variable) => Some(variable.get(variables)),
            ValueOp::Store(_, value) => value.get(variables, answer),
            ValueOp::Compute(kind, value) => kind.of(answer?, value.get(variables, answer)?),
        }
    }

    /// Whether it divides by no number 0 of its text.
    pub fn is_defined(self) -> bool
        ensures { result ≡ is_defined self }
    {
        !matches!(
            self,
            ValueOp::Compute(Arithmetic::Div | Arithmetic::Mod, Value::Number(0)),
        )
    }

    /// The word with which its text begins.
    pub fn word(self) -> &'static str
        ensures { result.now ≡ word_of_value_op self }
    {
        match self {
            ValueOp::Load(_) => "load",
            ValueOp::Store(_, _) => "store",
            ValueOp::Compute(kind, _) => kind.word(),
        }
    }
}
