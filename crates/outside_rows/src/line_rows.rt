//! A line of each kind of word, and what a failure of the sink leaves of three pieces.
use crate::{Stop, report};
use eon_base::name::Name;
use eon_model::Class;
use eon_outside::MemSink;
use line_writer::{
    MemoryText, SinkText, TextSink, end_line, put_centre, put_class, put_line, put_name,
    put_number, put_unit,
};
use std::alloc::{AllocError, Global};

/// A word of each kind, and a line of given words.
fn put_each_kind<W: TextSink>(name: &Name, out: &mut W) {
    out.put(b"all");
    put_name(name, out);
    put_number(18446744073709551615, out);
    put_centre(-14, out);
    put_unit(-4096, out);
    put_class(Class::Dual, out);
    end_line(out);
    put_line(b"map", &[b"ac", b"2"], out);
}

/// The lines stand as they are read.
fn lines_are_added(alloc: Global) -> Result<bool, AllocError> {
    let Ok(name) = Name::read(b"s1") else {
        return Ok(false);
    };
    let mut out = Vec::new(alloc);
    let mut text = MemoryText::new(&mut out);
    put_each_kind(&name, &mut text);
    text.finish()?;
    Ok(out.as_slice() == b"all s1 18446744073709551615 -14 -4096 dual\nmap ac 2\n".as_slice())
}

/// Gives three pieces of 500 bytes to a sink that takes 300 at a call; the call of this number fails. So many bytes are
/// given, and the failure is told.
fn front_is_left(alloc: Global, failing: u64, want: usize) -> Result<bool, AllocError> {
    let mut sink = MemSink::new(alloc, 5000, 300, [failing].to_vec(alloc)?)?;
    let mut text = SinkText::new(&mut sink);
    text.put(&[b'a'; 500]);
    text.put(&[b'b'; 500]);
    text.put(&[b'c'; 500]);
    let is_whole = text.finish().is_ok();
    Ok(is_whole == (failing > 6) && sink.given().len() == want)
}

/// Tries each row.
pub(crate) fn report_all(rt: &HostRuntime) -> Result<(), Stop> {
    let alloc = rt.alloc();
    report(rt, "a word of each kind", lines_are_added(alloc)?)?;
    report(rt, "the first call fails", front_is_left(alloc, 1, 0)?)?;
    report(rt, "the second call fails", front_is_left(alloc, 2, 300)?)?;
    report(rt, "the fifth call fails", front_is_left(alloc, 5, 1000)?)?;
    report(rt, "no call fails", front_is_left(alloc, 7, 1500)?)
}
