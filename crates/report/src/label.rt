//! The front of a line, kept.
ghost use Rattle.std.specs.Prelude.{◌≡◌, ◌<◌, ◌≤◌, ◌+◌, drop, length, true};
ghost use Rattle.report.specs.Fronts.{IsLabel};

/// The front of a line: none yet, or this many bytes at the front of these.
#[derive(Clone, Copy)]
pub(crate) struct Label {
    pub(crate) text: [u8; 48],
    pub(crate) len: u8,
}

impl Label {
    /// No label yet.
    pub(crate) fn none() -> Label
        ensures { result.len ≡ 0 }
    {
        Label {
            text: [0; 48],
            len: 0,
        }
    }

    /// A label of the bytes from `start` on, at most 48.
    pub(crate) fn of(bytes: &[u8], start: usize) -> Label
        requires start { start ≤ length bytes.now }
        requires few { length bytes.now ≤ start + 48 }
        ensures { IsLabel result (drop start bytes.now) }
    {
        let front = &bytes[start..];
        let mut text = [0; 48];
        text[..front.len()].copy_from_slice(front);
        Label {
            text,
            len: front.len() as u8,
        }
    }
}

/// The front of the line of an op: of the op of this index, of the task or the handler of this number.
#[derive(Clone, Copy)]
pub(crate) struct OpLabel {
    pub(crate) owner: u8,
    pub(crate) op_index: u16,
    pub(crate) label: Label,
}

impl OpLabel {
    /// No label yet.
    pub(crate) fn none() -> OpLabel
        ensures { result.label.len ≡ 0 }
    {
        OpLabel {
            owner: 0,
            op_index: 0,
            label: Label::none(),
        }
    }

    /// Whether it is that of the op of this index, of this owner.
    #[inline]
    pub(crate) fn is_of(&self, owner: u8, op_index: u16) -> bool
        ensures { result ≡ true
            → (0 < self.now.label.len) × (self.now.owner ≡ owner) × (self.now.op_index ≡ op_index) }
    {
        self.label.len != 0 && self.owner == owner && self.op_index == op_index
    }
}
