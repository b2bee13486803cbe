//! The words of an op's text, and what they say.
ghost use Rattle.std.specs.Prelude.{◌≡◌, ◌==◌, ◌↔◌, ◌⊎◌, ◌<◌, ◌≤◌, [], ◌∷◌, None, Some, IsNone, IfSome, IsTrue, MatchOption, length, true};
ghost use Rattle.std.specs.Char.{is_ascii_digit};
ghost use Rattle.std.specs.List.{list_all, position_or_len};
ghost use Rattle.std.specs.Str.Parse.{digits_value};
ghost use Rattle.std.specs.Str.{bytes_eq};
ghost use Rattle.grammar.specs.Grammar.{words_of, is_number, number_of, number_unless, given, is_of_conditions, operand_of, compared_of, answer_of, choice_of, action_of, OfObject, OfGroup, OfTask, OfVariable, OfHandler, take_by, take_condition};

use crate::finding::Finding;
use crate::object_sort::ObjectSort;
use model::{
    AnswerCondition, GroupId, HandlerId, NotifyAction, ObjectId, TaskId, Value, VariableId,
};
use std::marker::Model;

/// Whether a word is this one.
pub(crate) fn is(word: &[u8], name: &str) -> bool
    ensures { result ≡ bytes_eq word.now name.now }
{
    word == name.as_bytes()
}

// The text from its first word on.
fn trim_start(text: &[u8]) -> &[u8]
    ensures words { words_of result.now ≡ words_of text.now }
    ensures word { (result.now ≡ []) ⊎ (0 < position_or_len (λ b. b == 32) result.now) }
{
    let mut left = text;
    while let [b' ', after @ ..] = left {
        left = after;
    }
    left
}

// Where the first space of a text is, or the text ends.
fn word_length(text: &[u8]) -> usize
    ensures space { result ≡ position_or_len (λ b. b == 32) text.now }
    ensures within { result ≤ length text.now }
{
    for (index, byte) in text.iter().enumerate() {
        if *byte == b' ' {
            return index;
        }
    }
    text.len()
}

fn are_digits(bytes: &[u8]) -> bool
    ensures { result ≡ list_all is_ascii_digit bytes.now }
{
    bytes.iter().all(|byte| byte.is_ascii_digit())
}

// One to ten digits.
fn is_number(word: &[u8]) -> bool
    ensures { result ≡ is_number word.now }
{
    !word.is_empty() && word.len() <= 10 && are_digits(word)
}

// The number that digits write.
fn value_of(digits: &[u8]) -> u64
    requires few { length digits.now ≤ 10 }
    requires digits { list_all is_ascii_digit digits.now ≡ true }
    ensures { result ≡ digits_value 10 digits.now }
{
    let mut value = 0u64;
    for digit in digits {
        value = value * 10 + u64::from(*digit - b'0');
    }
    value
}

/// The number that a word writes.
pub(crate) fn number_of(word: &[u8]) -> Option<u32>
    ensures { result ≡ number_of word.now }
{
    if is_number(word) {
        u32::try_from(value_of(word)).ok()
    } else {
        None
    }
}

// The number that a word writes, or none if it is this other word.
fn number_unless(word: &[u8], other: &str) -> Option<Option<u32>>
    ensures { result ≡ number_unless other.now word.now }
{
    if word == other.as_bytes() {
        Some(None)
    } else {
        number_of(word).map(Some)
    }
}

/// This number as a value, or the last answer if there is none.
pub(crate) fn given(number: Option<u32>) -> Value
    ensures { result ≡ given number }
{
    match number {
        Some(number) => Value::Number(number),
        None => Value::Answer,
    }
}

// The operand that a word writes: a number, or a variable by its name.
fn operand_of<F: Finding>(word: &[u8], finding: &F) -> Option<Value>
    ensures { result ≡ operand_of (F.naming finding.now) word.now }
{
    match number_of(word) {
        Some(number) => Some(Value::Number(number)),
        None => Some(Value::Variable(finding.variable(word)?)),
    }
}

// Whether a condition has a meaning of its own for the word.
fn is_of_conditions(word: &[u8]) -> bool
    ensures { result ≡ is_of_conditions word.now }
{
    is(word, "none") || is(word, "not") || is(word, "below") || is(word, "above")
}

// What a word writes that an answer is compared with.
fn compared_of<F: Finding>(word: &[u8], finding: &F) -> Option<Value>
    ensures { result ≡ compared_of (F.naming finding.now) word.now }
{
    if is_of_conditions(word) {
        None
    } else {
        operand_of(word, finding)
    }
}

// The answer that a word writes, which may be none.
fn answer_of<F: Finding>(word: &[u8], finding: &F) -> Option<Option<Value>>
    ensures { result ≡ answer_of (F.naming finding.now) word.now }
{
    if is(word, "none") {
        Some(None)
    } else {
        Some(Some(compared_of(word, finding)?))
    }
}

// Which of two words it is: whether it is the second.
fn choice_of(word: &[u8], first: &str, second: &str) -> Option<bool>
    ensures { result ≡ choice_of first.now second.now word.now }
{
    if word == first.as_bytes() {
        Some(false)
    } else if word == second.as_bytes() {
        Some(true)
    } else {
        None
    }
}

// The action of a notify that a word says.
fn action_of(word: &[u8]) -> Option<NotifyAction<()>>
    ensures { result ≡ action_of word.now }
{
    if is(word, "none") {
        Some(NotifyAction::Nothing)
    } else if is(word, "bits") {
        Some(NotifyAction::SetBits(()))
    } else if is(word, "increment") {
        Some(NotifyAction::Increment)
    } else if is(word, "overwrite") {
        Some(NotifyAction::Overwrite(()))
    } else if is(word, "keep") {
        Some(NotifyAction::Keep(()))
    } else {
        None
    }
}

/// The words of a text that are still to be read.
#[derive(Drop)]
pub(crate) struct Words<'a> {
    text: &'a [u8],
}

impl<'a> Model for Words<'a> {
    ghost use Rattle.std.specs.Prelude.{List};
    ghost use Rattle.grammar.specs.Grammar.{Word, words_of};

    ghost Value = { List Word };

    ghost view = { λ w. words_of w.text.now };
}

impl<'a> Words<'a> {
    /// The words of a text.
    pub(crate) fn new(text: &'a [u8]) -> Self
        ensures { result ≡ words_of text.now }
    {
        Words { text }
    }

    /// The next word.
    pub(crate) fn next(&mut self) -> Option<&'a [u8]>
        ensures none { IsNone result → self.old ≡ [] }
        ensures some { IfSome result (λ word. self.old ≡ word.now ∷ self.new) }
    {
        let text = trim_start(self.text);
        if text.is_empty() {
            return None;
        }
        let (word, left) = text.split_at(word_length(text));
        self.text = left;
        Some(word)
    }

    /// The number that the next word writes.
    pub(crate) fn number(&mut self) -> Option<u32>
        ensures { MatchOption result (take_by number_of self.old ≡ None)
            (λ n. take_by number_of self.old ≡ Some (n, self.new)) }
    {
        number_of(self.next()?)
    }

    /// The number that the next word writes, or none if it is this other word.
    pub(crate) fn number_unless(&mut self, other: &str) -> Option<Option<u32>>
        ensures { MatchOption result (take_by (number_unless other.now) self.old ≡ None)
            (λ n. take_by (number_unless other.now) self.old ≡ Some (n, self.new)) }
    {
        number_unless(self.next()?, other)
    }

    /// The operand that the next word writes: a number, or a variable by its name.
    pub(crate) fn operand<F: Finding>(&mut self, finding: &F) -> Option<Value>
        ensures { MatchOption result (take_by (operand_of (F.naming finding.now)) self.old ≡ None)
            (λ v. take_by (operand_of (F.naming finding.now)) self.old ≡ Some (v, self.new)) }
    {
        operand_of(self.next()?, finding)
    }

    // What the next word writes that an answer is compared with.
    fn compared<F: Finding>(&mut self, finding: &F) -> Option<Value>
        ensures { MatchOption result (take_by (compared_of (F.naming finding.now)) self.old ≡ None)
            (λ v. take_by (compared_of (F.naming finding.now)) self.old ≡ Some (v, self.new)) }
    {
        compared_of(self.next()?, finding)
    }

    // The answer that the next word writes, which may be none.
    fn answer<F: Finding>(&mut self, finding: &F) -> Option<Option<Value>>
        ensures { MatchOption result (take_by (answer_of (F.naming finding.now)) self.old ≡ None)
            (λ answer. take_by (answer_of (F.naming finding.now)) self.old ≡ Some (answer, self.new)) }
    {
        answer_of(self.next()?, finding)
    }

    /// The condition for the last answer that the next words write.
    pub(crate) fn condition<F: Finding>(&mut self, finding: &F) -> Option<AnswerCondition>
        ensures { MatchOption result (take_condition (F.naming finding.now) self.old ≡ None)
            (λ condition. take_condition (F.naming finding.now) self.old ≡ Some (condition, self.new)) }
    {
        let word = self.next()?;
        if is(word, "not") {
            Some(AnswerCondition::IsNot(self.answer(finding)?))
        } else if is(word, "below") {
            Some(AnswerCondition::Below(self.compared(finding)?))
        } else if is(word, "above") {
            Some(AnswerCondition::Above(self.compared(finding)?))
        } else {
            Some(AnswerCondition::Is(answer_of(word, finding)?))
        }
    }

    /// The object of this sort that the next word names.
    pub(crate) fn object<F: Finding>(&mut self, sort: ObjectSort, finding: &F) -> Option<ObjectId>
        ensures { MatchOption result (take_by (F.naming finding.now (OfObject sort)) self.old ≡ None)
            (λ object. take_by (F.naming finding.now (OfObject sort)) self.old ≡ Some (object, self.new)) }
    {
        finding.object(sort, self.next()?)
    }

    /// The event group that the next word names.
    pub(crate) fn group<F: Finding>(&mut self, finding: &F) -> Option<GroupId>
        ensures { MatchOption result (take_by (F.naming finding.now OfGroup) self.old ≡ None)
            (λ group. take_by (F.naming finding.now OfGroup) self.old ≡ Some (group, self.new)) }
    {
        finding.group(self.next()?)
    }

    /// The task that the next word names.
    pub(crate) fn task<F: Finding>(&mut self, finding: &F) -> Option<TaskId>
        ensures { MatchOption result (take_by (F.naming finding.now OfTask) self.old ≡ None)
            (λ task. take_by (F.naming finding.now OfTask) self.old ≡ Some (task, self.new)) }
    {
        finding.task(self.next()?)
    }

    /// The variable that the next word names.
    pub(crate) fn variable<F: Finding>(&mut self, finding: &F) -> Option<VariableId>
        ensures { let named = F.naming finding.now OfVariable in MatchOption result (take_by named self.old ≡ None)
            (λ x. take_by named self.old ≡ Some (x.number, self.new)) }
    {
        finding.variable(self.next()?)
    }

    /// The handler that the next word names.
    pub(crate) fn handler<F: Finding>(&mut self, finding: &F) -> Option<HandlerId>
        ensures { MatchOption result (take_by (F.naming finding.now OfHandler) self.old ≡ None)
            (λ handler. take_by (F.naming finding.now OfHandler) self.old ≡ Some (handler, self.new)) }
    {
        finding.handler(self.next()?)
    }

    /// Which of two words the next word is: whether it is the second.
    pub(crate) fn choice(&mut self, first: &str, second: &str) -> Option<bool>
        ensures { MatchOption result (take_by (choice_of first.now second.now) self.old ≡ None)
            (λ b. take_by (choice_of first.now second.now) self.old ≡ Some (b, self.new)) }
    {
        choice_of(self.next()?, first, second)
    }

    /// The action of a notify that the next word says.
    pub(crate) fn action(&mut self) -> Option<NotifyAction<()>>
        ensures { MatchOption result (take_by action_of self.old ≡ None)
            (λ a. take_by action_of self.old ≡ Some (a, self.new)) }
    {
        action_of(self.next()?)
    }

    /// Whether no word is left.
    pub(crate) fn is_at_end(&self) -> bool
        ensures { IsTrue result ↔ (self.now ≡ []) }
    {
        trim_start(self.text).is_empty()
    }
}
