// Reads a day file on standard input and writes its sheet on standard output.
#![tactic(auto)]

use nightloop::Streams;
use std::env::{Env, FillError};
use std::io::{Stderr, Write};
use tables::House;

fn main(rt: HostRuntime) {
    // Where a word stands behind the program's name, it is told how the program is called.
    let mut word = [0u8; 1];
    let is_plain = matches!(rt.arg(1, &mut word), Err(FillError::NotPresent));
    if !is_plain {
        tell_usage(rt.stderr());
        return;
    }
    let streams = Streams {
        input: rt.stdin(),
        output: rt.stdout(),
        errors: rt.stderr(),
    };
    night(streams);
}

// Says how the program is called.
fn tell_usage(errors: Stderr) {
    let mut errors = errors;
    let _ = errors.write_all(
        b"usage: nightsheet < DAYFILE\nReads a day file on standard input and writes its sheet on standard output.\n",
    );
}

// One night, from the first line to the last.
fn night(streams: Streams) {
    let mut chunk = [0u8; nightloop::OUT];
    let mut buf = [0u8; dayfile::lines::MOST_BYTES];
    let mut counts = [0u64; dayfile::MOST_COUNTS];
    let mut accounts = [0i64; House::TABLE];
    let mut counters = [0u32; House::TABLE];
    let mut pays = [0u64; House::PLACES];
    let mut out = [0u8; nightloop::OUT];
    nightloop::whole(
        streams,
        &mut chunk,
        &mut buf,
        &mut counts,
        &mut accounts,
        &mut counters,
        &mut pays,
        &mut out,
    );
}
