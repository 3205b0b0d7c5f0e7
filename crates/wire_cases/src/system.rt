//! The adapters of the system: a file, a slice that is read, a slice that is written, and the
//! clock.
use case_lines::Told;
use pool_base::{
    Clock, Files, Got, ReaderSource, Sink, Source, SystemClock, SystemFiles, WriterSink,
    read_whole, write_all,
};
use std::alloc::Global;
use std::io;

/// Puts the count of faults behind a line, and ends it.
fn put_faults(faults: u64, told: &mut Told) {
    told.put("; faults ");
    told.put_number(faults);
    told.put("\n");
}

/// What is read of a file of that name, up to a limit.
fn put_file(alloc: Global, files: &mut impl Files, name: &str, limit: usize, told: &mut Told) {
    match read_whole(alloc, files, name, limit) {
        Ok(bytes) => told.put_escaped(bytes.as_slice()),
        Err(_) => told.put("not read"),
    }
    put_faults(files.faults(), told);
}

/// What a source gives, in pieces of at most four bytes.
fn put_source(source: &mut impl Source, told: &mut Told) {
    let mut piece = [0u8; 4];
    for _ in 0..9 {
        match source.read(&mut piece) {
            Got::Bytes(count) => told.put_escaped(&piece[..count]),
            Got::End => return put_faults(source.faults(), told),
            Got::Failed => told.put("failed"),
        }
    }
}

/// Whether a sink takes a piece.
fn put_taken(sink: &mut impl Sink, piece: &[u8], told: &mut Told) {
    told.put(match write_all(sink, piece) {
        Ok(()) => "taken ",
        Err(_) => "full",
    });
}

/// What a sink of three bytes takes, then one byte more.
fn put_sink(told: &mut Told) {
    let mut room = [0u8; 3];
    let mut sink = WriterSink::new(room.as_mut_slice());
    put_taken(&mut sink, b"gat", told);
    put_taken(&mut sink, b"e", told);
    put_faults(sink.faults(), told);
}

/// Whether it is later than 2026-01-01 00:00 UTC.
fn put_clock(clock: &mut impl Clock, told: &mut Told) {
    told.put(if clock.now() > 820_540_800_000_000 {
        "later\n"
    } else {
        "earlier\n"
    });
}

/// Prints what the adapters of the system gave: `adapters` reads the file of that name that lies
/// where it runs.
pub(crate) fn print_adapters(rt: &HostRuntime) -> io::Result<()> {
    let mut told = Told::new(rt.alloc());
    let mut files = SystemFiles::new(rt);
    put_file(rt.alloc(), &mut files, "adapters", 10, &mut told);
    put_file(rt.alloc(), &mut files, "absent", 10, &mut told);
    put_source(&mut ReaderSource::new(b"epoch".as_slice()), &mut told);
    put_sink(&mut told);
    put_clock(&mut SystemClock::new(rt), &mut told);
    print!(rt; "{}", told.as_str())
}
