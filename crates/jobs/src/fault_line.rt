//! The line of a fault.
ghost use Rattle.std.specs.Prelude.{◌≡◌, ◌∷◌, ◌++◌, ◌≤◌, ◌<◌, ◌+◌, codes, false, map, [], option_map};
ghost use Rattle.std.specs.List.{cons_option};
ghost use Rattle.arrayvec.specs.ArrayVec.{array_vec_len};
ghost use Rattle.byte_io.specs.Line.{piece_text};
ghost use Rattle.byte_io.specs.Shown.{shown_name};
ghost use Rattle.script.specs.Faults.{fault_name, place_words, word_text};
ghost use Rattle.jobs.specs.Acting.{fault_pieces, load_pieces, Tells, fault_line};
ghost use Rattle.jobs.specs.declared.run_job.JobFault.TheVariants as job_fault;

use crate::run_job::JobFault;
use arrayvec::ArrayVec;
use byte_io::{Piece, Sink, write_line};
use campaign::ServeFault;
use script::{Fault, FaultKind, Place, PlaceWord};

// The pieces of a line. A fault has seven at most: three of a load fault itself, and four of its
// place.
type Pieces<'a> = ArrayVec<Piece<'a>, 7>;

// The name of a load fault of this kind, and a colon.
fn label(kind: FaultKind) -> &'static str
    ensures { result.now ≡ fault_name kind ++ codes ":" }
{
    match kind {
        FaultKind::Missing => "Missing:",
        FaultKind::WrongKind => "WrongKind:",
        FaultKind::OutOfRange => "OutOfRange:",
        FaultKind::BadOp => "BadOp:",
        FaultKind::UnknownName => "UnknownName:",
        FaultKind::DoubleName => "DoubleName:",
        FaultKind::BadNesting => "BadNesting:",
        FaultKind::OverwriteLength => "OverwriteLength:",
        FaultKind::TooMany => "TooMany:",
        FaultKind::NoDaemon => "NoDaemon:",
    }
}

fn piece_of<'a>(word: PlaceWord) -> Piece<'a>
    ensures { piece_text result ≡ word_text word }
{
    match word {
        PlaceWord::Name(name) => Piece::Text(name),
        PlaceWord::Index(index) => Piece::Number(index as u64),
    }
}

// Appends a word of a place, if it applies.
fn push_word(pieces: &mut Pieces<'_>, word: Option<PlaceWord>)
    requires { array_vec_len pieces.old < 7 }
    ensures texts { map piece_text pieces.new.items
        ≡ map piece_text pieces.old.items ++ cons_option (option_map word_text word) [] }
    ensures count { array_vec_len pieces.new ≤ array_vec_len pieces.old + 1 }
{
    if let Some(word) = word {
        pieces.push(piece_of(word));
    }
}

// Appends the words of a place, four at most.
#[tactic(auto, using(crate::proofs::Lines::words_left))]
fn push_place(pieces: &mut Pieces<'_>, place: Place)
    requires { array_vec_len pieces.old ≤ 3 }
    ensures { map piece_text pieces.new.items
        ≡ map piece_text pieces.old.items ++ place_words place }
{
    let words = place.words();
    for word in words {
        push_word(pieces, word);
    }
}

// The pieces of a load fault.
fn load_pieces<'a>(fault: Fault) -> Pieces<'a>
    ensures { map piece_text result.items ≡ load_pieces fault }
{
    let mut pieces = Pieces::new();
    pieces.push(Piece::Text("rtosim:"));
    pieces.push(Piece::Number(u64::from(fault.kind.code())));
    pieces.push(Piece::Text(label(fault.kind)));
    push_place(&mut pieces, fault.place);
    pieces
}

// The pieces of a line of these words.
fn words_alone<'a>(words: &'a str) -> Pieces<'a>
    ensures { map piece_text result.items ≡ words.entry.now ∷ [] }
{
    let mut pieces = Pieces::new();
    pieces.push(Piece::Text(words));
    pieces
}

// The pieces of a line of these words and a name.
fn words_and_name<'a>(words: &'a str, name: &'a str) -> Pieces<'a>
    ensures { map piece_text result.items ≡ words.entry.now ∷ shown_name name.entry.now ∷ [] }
{
    let mut pieces = Pieces::new();
    pieces.push(Piece::Text(words));
    pieces.push(Piece::Name(name));
    pieces
}

// The pieces of the line of a fault in serving.
fn serve_pieces<'a>(name: &'a str, fault: ServeFault) -> Pieces<'a>
    ensures { map piece_text result.items ≡ fault_pieces name.entry.now (job_fault.Serve fault) }
{
    match fault {
        ServeFault::Read => words_and_name("rtosim: cannot read", name),
        ServeFault::NotToml => words_alone("rtosim: not TOML"),
        ServeFault::Load(fault) => load_pieces(fault),
        ServeFault::UnknownHandler(_) => words_and_name("rtosim: unknown handler", name),
        ServeFault::TooManyPoints => words_alone("rtosim: too many points"),
        ServeFault::Memory => words_alone("rtosim: out of memory"),
        ServeFault::Write => words_alone("rtosim: cannot write"),
    }
}

// The pieces of a fault's line.
fn pieces_of<'a>(name: &'a str, fault: JobFault) -> Pieces<'a>
    ensures { map piece_text result.items ≡ fault_pieces name.entry.now fault }
{
    match fault {
        JobFault::Unpaired => words_alone("rtosim: --at and --handler go together"),
        JobFault::TooLarge => {
            let mut pieces = Pieces::new();
            pieces.push(Piece::Text("rtosim: cannot read"));
            pieces.push(Piece::Label(name));
            pieces.push(Piece::Text("larger than 64 MiB"));
            pieces
        }
        JobFault::Serve(fault) => serve_pieces(name, fault),
    }
}

/// Puts the line of a fault, which may contain this name: of a handler that is unknown, or of a
/// file that can't be read. If the sink fails, or takes none of some bytes, it has taken a
/// beginning of the line.
pub fn tell<F: Sink>(faults: &mut F, name: &str, fault: JobFault)
    requires { F.has_failed faults.old ≡ false }
    ensures { Tells (F.held faults.old) (F.held faults.new) (F.has_failed faults.new)
        (fault_line name.now fault) }
{
    let pieces = pieces_of(name, fault);
    let _ = write_line(faults, pieces.as_slice());
}
