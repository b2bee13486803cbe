//! Objects: queues, semaphores and mutexes.
ghost use Rattle.std.specs.Prelude.{◌≤◌, IfSome, length};
ghost use Rattle.std.specs.List.{AllByRecursion};
ghost use Rattle.model.specs.Scripts.{IsObjectKind};

use super::{Dice, Theme};
use model::ObjectKind;
use std::alloc::Global;

impl Dice {
    /// A queue, usually a short one.
    fn queue(&mut self) -> ObjectKind
        ensures { IsObjectKind result }
    {
        match self.roll(16) {
            _ if self.theme == Theme::Crowd => ObjectKind::Queue(1 + self.roll(2) as u16),
            0 => ObjectKind::Queue(256),
            _ => ObjectKind::Queue(1 + self.roll(3) as u16),
        }
    }

    /// A counting semaphore, usually with a small greatest count. It is never equal to a binary one.
    fn counting(&mut self) -> ObjectKind
        ensures { IsObjectKind result }
    {
        let max_count = 2 + self.roll(3) as u16;
        match self.roll(8) {
            0 => ObjectKind::Semaphore(1, 1),
            1 => ObjectKind::Semaphore(65_535, 65_534),
            _ => ObjectKind::Semaphore(max_count, self.roll(1 + max_count as u32) as u16),
        }
    }

    /// The object for this face of 16, in the order in which a file lists them.
    fn object(&mut self, face: u32) -> ObjectKind
        ensures { IsObjectKind result }
    {
        match face {
            0..=6 => self.queue(),
            7..=9 => ObjectKind::Semaphore(1, 0),
            10..=12 => self.counting(),
            _ => ObjectKind::Mutex,
        }
    }

    /// A face for an object: tasks crowd around queues and semaphores, and contend mainly for mutexes.
    fn face(&mut self) -> u32 {
        match self.theme {
            Theme::Any
            | Theme::Gathering
            | Theme::Suspension
            | Theme::Section
            | Theme::Signal
            | Theme::Device => self.roll(16),
            Theme::Crowd | Theme::Decision | Theme::Calculation => self.roll(11),
            Theme::Contest => 12 + self.roll(4),
        }
    }

    /// The number of objects: up to four in applications of all sorts, at most one if tasks wait for bits or notify each other,
    /// otherwise one or two.
    fn object_count(&mut self) -> u32
        ensures { result ≤ 4 }
    {
        match self.theme {
            Theme::Any => self.roll(5),
            Theme::Crowd
            | Theme::Contest
            | Theme::Suspension
            | Theme::Decision
            | Theme::Section
            | Theme::Calculation
            | Theme::Device => 1 + self.roll(2),
            Theme::Gathering | Theme::Signal => self.roll(2),
        }
    }

    pub(super) fn objects(&mut self, alloc: Global) -> Option<Vec<ObjectKind>>
        ensures few { IfSome result (λ objects. length objects.items ≤ 4) }
        ensures kinds { IfSome result (λ objects. AllByRecursion IsObjectKind objects.items) }
    {
        let mut objects = Vec::new(alloc);
        let mut face = 0;
        let count = self.object_count();
        for _ in 0..count {
            face = face.max(self.face());
            objects.push(self.object(face)).ok()?;
        }
        Some(objects)
    }
}
