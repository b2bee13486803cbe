//! Task notifications: what is kept of one, what a `notify` makes of it, and what a task waits for or clears.
use crate::value::Value;

/// What is kept of a task's notification, the one of index 0 in FreeRTOS (`ulNotifiedValue`, `ucNotifyState`).
#[derive(Clone, Copy, Default, PartialEq, Eq)]
pub struct Notification {
    /// The notification value.
    pub value: u32,
    /// Whether a notification is pending.
    pub pending: bool,
}

/// What a `notify` does to a task's notification value (`eNotifyAction`). What it puts there is a value in a script, and a number
/// in the kernel.
#[derive(Clone, Copy, PartialEq, Eq)]
pub enum NotifyAction<Item> {
    /// Leaves it (`eNoAction`).
    Nothing,
    /// Sets these bits of it (`eSetBits`).
    SetBits(Item),
    /// Adds one, modulo 2^32 (`eIncrement`).
    Increment,
    /// Replaces it (`eSetValueWithOverwrite`).
    Overwrite(Item),
    /// Replaces it, unless a notification is pending (`eSetValueWithoutOverwrite`).
    Keep(Item),
}

impl<Item: Copy> NotifyAction<Item> {
    ghost use Rattle.std.specs.Prelude.{◌≡◌};
    ghost use Rattle.model.specs.Notifications.{notify_value};

    /// What it puts into the notification value, if it puts something there.
    #[inline]
    pub fn value(self) -> Option<Item>
        ensures { result ≡ notify_value self }
    {
        match self {
            NotifyAction::SetBits(value)
            | NotifyAction::Overwrite(value)
            | NotifyAction::Keep(value) => { Some(value) }
            NotifyAction::Nothing | NotifyAction::Increment => None,
        }
    }
}

impl NotifyAction<Value> {
    ghost use Rattle.std.specs.Prelude.{◌≡◌};
    ghost use Rattle.model.specs.Notifications.{lacks_notify_value, notify_with_number};

    /// Whether what it puts there is the last answer, and that is `none`.
    #[inline]
    pub fn lacks_value(self, answer: Option<u32>) -> bool
        ensures { result ≡ lacks_notify_value answer self }
    {
        match self.value() {
            Some(value) => value.is_missing(answer),
            None => false,
        }
    }

    /// The same with a number for its value, by these variables and this last answer.
    #[inline]
    pub fn with_number(self, variables: &[u32], answer: Option<u32>) -> NotifyAction<u32>
        ensures { result ≡ notify_with_number variables.now answer self }
    {
        match self {
            NotifyAction::Nothing => NotifyAction::Nothing,
            NotifyAction::SetBits(value) => NotifyAction::SetBits(value.number(variables, answer)),
            NotifyAction::Increment => NotifyAction::Increment,
            NotifyAction::Overwrite(value) => NotifyAction::Overwrite(value.number(
                variables, answer,
            )),
            NotifyAction::Keep(value) => NotifyAction::Keep(value.number(variables, answer)),
        }
    }
}

impl NotifyAction<u32> {
    ghost use Rattle.std.specs.Prelude.{◌≡◌, Some};
    ghost use Rattle.model.specs.Notifications.{notified, notify_answer};

    /// What it makes of a task's notification.
    pub fn notified(self, notification: Notification) -> Notification
        ensures { result ≡ notified self notification }
    {
        let value = match self {
            NotifyAction::Nothing => notification.value,
            NotifyAction::SetBits(bits) => notification.value | bits,
            NotifyAction::Increment => notification.value.wrapping_add(1),
            NotifyAction::Overwrite(value) => value,
            NotifyAction::Keep(value) => {
                if notification.pending {
                    notification.value
                } else {
                    value
                }
            }
        };
        Notification {
            value,
            pending: true,
        }
    }

    /// What the call returns, by the notification before it: 0 if it keeps the value of a pending one, otherwise 1.
    pub fn answer(self, notification: Notification) -> u32
        ensures { Some result ≡ notify_answer self notification }
    {
        match self {
            NotifyAction::Keep(_) if notification.pending => 0,
            _ => 1,
        }
    }
}

/// Bits of its notification value that a `notify_wait` clears: any of the 32.
#[derive(Clone, Copy, PartialEq, Eq)]
pub struct NotificationMasks {
    /// Those that it clears at its start, if no notification is pending (`ulBitsToClearOnEntry`).
    pub entry: u32,
    /// Those that it clears at its end, if a notification is pending (`ulBitsToClearOnExit`).
    pub exit: u32,
}

/// What a task waits for by its notification, and what it leaves of it.
#[derive(Clone, Copy, PartialEq, Eq)]
pub enum NotificationWait {
    /// Waits until the value isn't 0. Then that becomes 0 if this is `true`, otherwise one less (`ulTaskNotifyTake`,
    /// `xClearCountOnExit`).
    Take(bool),
    /// Waits until a notification is pending (`xTaskNotifyWait`).
    Wait(NotificationMasks),
}

impl NotificationWait {
    ghost use Rattle.std.specs.Prelude.{◌≡◌};
    ghost use Rattle.model.specs.Notifications.{is_there, entered, left_by_wait, wait_answer};
    ghost use Rattle.model.specs.Words.{word_of_notification_wait};

    /// What its start makes of the task's notification.
    pub fn entered(self, notification: Notification) -> Notification
        ensures { result ≡ entered self notification }
    {
        let NotificationWait::Wait(masks) = self else {
            return notification;
        };
        if notification.pending {
            return notification;
        }
        Notification {
            value: notification.value & !masks.entry,
            pending: false,
        }
    }

    /// Whether that for which it waits is there.
    pub fn is_there(self, notification: Notification) -> bool
        ensures { result ≡ is_there self notification }
    {
        match self {
            NotificationWait::Take(_) => notification.value > 0,
            NotificationWait::Wait(_) => notification.pending,
        }
    }

    /// What the call returns when the wait is over.
    pub fn answer(self, notification: Notification) -> Option<u32>
        ensures { result ≡ wait_answer self notification }
    {
        match self {
            NotificationWait::Wait(_) if !notification.pending => None,
            _ => Some(notification.value),
        }
    }

    /// What it leaves then of the task's notification, which isn't pending.
    pub fn left(self, notification: Notification) -> Notification
        ensures { result ≡ left_by_wait self notification }
    {
        let value = match self {
            NotificationWait::Take(true) => 0,
            NotificationWait::Take(false) => notification.value.saturating_sub(1),
            NotificationWait::Wait(masks) if notification.pending => notification.value
                & !masks.exit,
            NotificationWait::Wait(_) => notification.value,
        };
        Notification {
            value,
            pending: false,
        }
    }

    /// The first word of the call's text.
    pub fn word(self) -> &'static str
        ensures { result.now ≡ word_of_notification_wait self }
    {
        match self {
            NotificationWait::Take(_) => "notify_take",
            NotificationWait::Wait(_) => "notify_wait",
        }
    }
}

/// What a task clears of its notification.
#[derive(Clone, Copy, PartialEq, Eq)]
pub enum NotificationClear {
    /// A pending one is pending no more (`xTaskNotifyStateClear`).
    Pending,
    /// These bits of the value, any of the 32 (`ulTaskNotifyValueClear`).
    Bits(u32),
}

impl NotificationClear {
    ghost use Rattle.std.specs.Prelude.{◌≡◌, Some};
    ghost use Rattle.model.specs.Notifications.{clear_answer, cleared};
    ghost use Rattle.model.specs.Words.{word_of_notification_clear};

    /// What the call returns, by the notification before it: 1 or 0, or the value.
    pub fn answer(self, notification: Notification) -> u32
        ensures { Some result ≡ clear_answer self notification }
    {
        match self {
            NotificationClear::Pending => notification.pending as u32,
            NotificationClear::Bits(_) => notification.value,
        }
    }

    /// What it leaves of the task's notification.
    pub fn cleared(self, notification: Notification) -> Notification
        ensures { result ≡ cleared self notification }
    {
        match self {
            NotificationClear::Pending => Notification {
                value: notification.value,
                pending: false,
            },
            NotificationClear::Bits(bits) => Notification {
                value: notification.value & !bits,
                pending: notification.pending,
            },
        }
    }

    /// The first word of the call's text.
    pub fn word(self) -> &'static str
        ensures { result.now ≡ word_of_notification_clear self }
    {
        match self {
            NotificationClear::Pending => "notify_clear",
            NotificationClear::Bits(_) => "notify_value_clear",
        }
    }
}
