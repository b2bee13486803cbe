//! Tasks between the two passes.
ghost use Rattle.std.specs.Prelude.{◌≤◌, ◌<◌, length};
ghost use Rattle.model.specs.Scripts.{most_name_bytes, priorities, most_ops};

use arrayvec::ArrayVec;
use toml::Value;

// A task whose ops are still texts.
#[derive(Drop)]
pub(crate) struct RawTask<'a> {
    pub(crate) name: &'a str,
    pub(crate) priority: u8,
    pub(crate) endless: bool,
    pub(crate) script: &'a [Value],
    pub(crate) ghost short: { length name.now ≤ most_name_bytes },
    pub(crate) ghost known: { priority < priorities },
    pub(crate) ghost few: { length script.now ≤ most_ops },
}

// What an array of tasks has in a place that is still free.
impl Default for RawTask<'_> {
    fn default() -> Self {
        RawTask {
            name: "",
            priority: 0,
            endless: false,
            script: &[],
        }
    }
}

// The most tasks (profile).
pub(crate) const MOST_TASKS: usize = 32;

/// The tasks of a document, whose ops are still texts.
pub(crate) type RawTasks<'a> = ArrayVec<RawTask<'a>, MOST_TASKS>;
