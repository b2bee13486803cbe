//! The application of a file's bytes.
ghost use Rattle.std.specs.Prelude.{◌≡◌, ℕ, List, false, MatchResult};
ghost use Rattle.campaign.specs.Serving.{IsFileOf, HasFileFault, Known, is_read_fault, is_write_fault};
ghost use Rattle.campaign.specs.declared.file.ServeFault.TheVariants as fault;

use byte_io::{ReadFault, Source, WriteFault, read_all};
use model::{App, Memory};
use script::{Fault, FromDocument, LoadError};
use std::alloc::Global;
use std::mem::forget;
use toml::Table;

/// Why what is asked for of a file was not written, or not as a whole.
#[derive(Clone, Copy)]
pub enum ServeFault {
    /// The reader failed.
    Read,
    /// The bytes are not UTF-8, or spell no TOML document.
    NotToml,
    /// The document has this fault, the first that its checks find.
    Load(Fault),
    /// No handler of the application has the name in this place, from 0, of what is asked for. It
    /// is the first such name.
    UnknownHandler(usize),
    /// The points of the campaign are more than 1,000,000 (profile).
    TooManyPoints,
    /// No memory is left, for the bytes, the application or its runs. For no bytes none is needed.
    Memory,
    /// The writer failed, or took none of some bytes.
    Write,
}

impl From<ReadFault> for ServeFault {
    ghost use Rattle.campaign.specs.Faults.{of_reading};

    ghost from_gives = { λ fault given. given ≡ of_reading fault };

    fn from(fault: ReadFault) -> ServeFault {
        match fault {
            ReadFault::Failed => ServeFault::Read,
            ReadFault::Memory => ServeFault::Memory,
        }
    }
}

impl From<Memory> for ServeFault {
    ghost from_gives = { λ _ given. given ≡ fault.Memory };

    fn from(_: Memory) -> ServeFault {
        ServeFault::Memory
    }
}

impl From<WriteFault> for ServeFault {
    ghost from_gives = { λ _ given. given ≡ fault.Write };

    fn from(_: WriteFault) -> ServeFault {
        ServeFault::Write
    }
}

impl From<LoadError> for ServeFault {
    ghost use Rattle.campaign.specs.Faults.{of_loading};

    ghost from_gives = { λ error given. given ≡ of_loading error };

    fn from(error: LoadError) -> ServeFault {
        match error {
            LoadError::Memory => ServeFault::Memory,
            LoadError::Fault(fault) => ServeFault::Load(fault),
        }
    }
}

// Of a file of this many bytes at most the document stays in memory to the end of the program.
const FEW: usize = 65_536;

// Lets go of the document of a file of this many bytes. One of few bytes stays in memory: it takes
// 10 MB at most, usually far less, and to give back a thousand of its tables takes as long as ten
// thousand steps.
fn let_go(document: Table, bytes: usize) {
    if bytes <= FEW {
        forget(document);
    }
}

/// The application of a file of these bytes.
pub fn app_in(alloc: Global, bytes: &[u8]) -> Result<App, ServeFault>
    ensures app { MatchResult result (IsFileOf bytes.now) (HasFileFault bytes.now) }
    ensures read { is_read_fault result ≡ false }
    ensures write { is_write_fault result ≡ false }
{
    let document = match toml::table_from_slice(alloc, bytes) {
        Ok(document) => document,
        Err(error) if error.is_memory() => return Err(ServeFault::Memory),
        Err(_) => return Err(ServeFault::NotToml),
    };
    let app = App::from_document(alloc, &document);
    let_go(document, bytes.len());
    Ok(app?)
}

/// The application of the file that the reader gives.
pub(crate) fn app_of<R: Source>(alloc: Global, reader: &mut R) -> Result<App, ServeFault>
    requires { R.has_failed reader.old ≡ false }
    ensures app { (bytes : List ℕ) × Known (R.left reader.old) bytes
        × MatchResult result (IsFileOf bytes) (HasFileFault bytes) }
    ensures read { R.has_failed reader.new ≡ is_read_fault result }
    ensures write { is_write_fault result ≡ false }
{
    let bytes = read_all(alloc, reader)?;
    app_in(alloc, bytes.as_slice())
}
