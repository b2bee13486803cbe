//! The daemon as the file has it.
ghost use Rattle.std.specs.Prelude.{◌≤◌, ◌<◌, length};
ghost use Rattle.model.specs.Scripts.{most_items, most_name_bytes, priorities};

/// The daemon, and how many commands its queue holds.
#[derive(Drop)]
pub(crate) struct NamedDaemon<'a> {
    pub(crate) name: &'a str,
    pub(crate) priority: u8,
    pub(crate) size: u16,
    pub(crate) ghost short: { length name.now ≤ most_name_bytes },
    pub(crate) ghost known: { priority < priorities },
    pub(crate) ghost some: { 1 ≤ size },
    pub(crate) ghost few: { size ≤ most_items },
}
