//! Handlers between the two passes.
ghost use Rattle.std.specs.Prelude.{◌≤◌, length};
ghost use Rattle.model.specs.Scripts.{most_name_bytes, most_handler_ops, most_apart};

use arrayvec::ArrayVec;
use model::App;
use toml::Value;

// A handler whose ops are still texts.
#[derive(Drop)]
pub(crate) struct RawHandler<'a> {
    pub(crate) name: &'a str,
    pub(crate) ops: &'a [Value],
    pub(crate) armed: bool,
    pub(crate) apart: u32,
    pub(crate) ghost short: { length name.now ≤ most_name_bytes },
    pub(crate) ghost few: { length ops.now ≤ most_handler_ops },
    pub(crate) ghost near: { apart ≤ most_apart },
}

// What an array of handlers has in a place that is still free.
impl Default for RawHandler<'_> {
    fn default() -> Self {
        RawHandler {
            name: "",
            ops: &[],
            armed: true,
            apart: 0,
        }
    }
}

/// The handlers of a document, whose ops are still texts.
pub(crate) type RawHandlers<'a> = ArrayVec<RawHandler<'a>, { App::MOST_HANDLERS }>;
