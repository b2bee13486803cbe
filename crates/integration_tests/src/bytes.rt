//! Reading and writing: calls that succeed, and lines byte by byte.

use crate::sinks::{Breaking, Holder, check_text};
use byte_io::{FromReader, Piece, ReadFault, ToWriter, put_all, read_all, write_line};

#[test]
fn all_bytes_are_read(rt: HostRuntime) {
    let long = vec![in rt.alloc(); 7; 300_000].expect(&rt, "memory");
    for bytes in [b"".as_slice(), b"abc".as_slice(), long.as_slice()] {
        let mut source = FromReader::new(bytes);
        let read = read_all(rt.alloc(), &mut source)
            .ok()
            .expect(&rt, "a slice does not fail");
        assert!(rt; read.as_slice() == bytes, "{} bytes", bytes.len());
    }
}

#[test]
fn a_read_that_fails_is_no_end(rt: HostRuntime) {
    for calls in 0..4 {
        let mut source = Breaking::new(b"x", calls);
        assert!(rt; matches!(read_all(rt.alloc(), &mut source), Err(ReadFault::Failed)));
    }
}

#[test]
fn many_bytes_are_written_with_one_call(rt: HostRuntime) {
    let long = vec![in rt.alloc(); 7; 300_000].expect(&rt, "memory");
    let mut written = Vec::new(rt.alloc());
    let mut sink = ToWriter::new(&mut written);
    assert!(rt; put_all(&mut sink, long.as_slice()).is_ok());
    assert!(rt; written.as_slice() == long.as_slice());
}

#[test]
fn bytes_are_written_as_far_as_there_is_room(rt: HostRuntime) {
    let mut room = [0; 5];
    let mut sink = ToWriter::new(room.as_mut_slice());
    assert!(rt; put_all(&mut sink, b"base: pass").is_err());
    assert!(rt; room.as_slice() == b"base:".as_slice());
}

#[test]
fn pieces_make_a_line(rt: HostRuntime) {
    let mut sink = Holder::wide(rt.alloc(), 3);
    let pieces = [
        Piece::Text("rtosim:"),
        Piece::Number(18446744073709551615),
        Piece::Text("OutOfRange:"),
        Piece::Text("task"),
        Piece::Number(0),
    ];
    assert!(rt; write_line(&mut sink, &pieces).is_ok());
    let line = "rtosim: 18446744073709551615 OutOfRange: task 0\n";
    check_text(&rt, rt.alloc(), "five pieces", sink.bytes(), line);
}

#[test]
fn control_characters_of_a_name_are_escaped(rt: HostRuntime) {
    let mut sink = Holder::wide(rt.alloc(), 3);
    let pieces = [
        Piece::Name("a\u{1b}[31m\n\u{7}\u{7f}\u{80}\u{9f}\u{a0}é\\"),
        Piece::Label("\0b"),
    ];
    assert!(rt; write_line(&mut sink, &pieces).is_ok());
    let line = "a\\u{1b}[31m\\u{0a}\\u{07}\\u{7f}\\u{80}\\u{9f}\u{a0}é\\ \\u{00}b:\n";
    check_text(&rt, rt.alloc(), "two names", sink.bytes(), line);
}

#[test]
fn no_pieces_make_an_empty_line(rt: HostRuntime) {
    let mut sink = Holder::wide(rt.alloc(), 3);
    assert!(rt; write_line(&mut sink, &[]).is_ok());
    check_text(&rt, rt.alloc(), "no pieces", sink.bytes(), "\n");
}
