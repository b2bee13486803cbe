//! Bytes in and out: where they come from and go to, reading all of them, a page that waits to be put, text
//! at a place, and lines of text.
#![tactic(auto)]

mod add;
mod buffer;
mod line;
mod memory;
mod numeral;
mod page;
mod pipe;
pub mod place;
mod put;
mod read;
mod shown;
mod std_io;
mod stream;

pub use add::{add_text, flush, make_room};
pub use buffer::Buffer;
pub use line::{Piece, write_line};
pub use numeral::Numeral;
pub use page::Page;
pub use pipe::{Messages, Output};
pub use put::{WriteFault, put_all};
pub use read::{ReadFault, read_all, read_at_most};
pub use shown::put_lines;
pub use std_io::{FromReader, ToWriter};
pub use stream::{Failed, Sink, Source};
