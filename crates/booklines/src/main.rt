// Reads a feed from standard input and writes the reply to each message.
//
// `feed` splits what is read into lines and answers them; what stands here are the calls of read and write. The replies to a
// block's lines are written before the next block is read. Where reading or writing fails, the program says so on standard
// error and ends: an unfinished line is not answered, and nothing is read after a reply that could not be written.
#![tactic(auto)]

mod streams;

ghost use Rattle.std.specs.Prelude.{◌+◌, ◌<◌, ◌≤◌, length, OnOk};
ghost use Rattle.crc32.specs.Table.{ShiftTable};
ghost use Rattle.feed.specs.Feed.{carried, max_reply};
ghost use Rattle.feed.specs.Stream.{Holds};

use crc32::{SHIFT_TABLE, fill_table};
use feed::Stream;
use std::io;
use std::io::ErrorKind;
use streams::{Failure, Sink, Source};

const INPUT: usize = 65536;

const OUTPUT: usize = 16384;

fn main(rt: HostRuntime) {
    let mut input = [0; INPUT];
    let mut output = [0; OUTPUT];
    let mut table = [0; SHIFT_TABLE];
    fill_table(&mut table);
    let mut sink = Sink::new(rt.stdout());
    if let Err(failure) = run(&rt, &mut input, &mut output, &table, &mut sink) {
        // Where standard error takes nothing either, there is nowhere left to say it.
        let _ = streams::fail(&rt, failure, sink.answered());
    }
}

// A feed after a block, and whether its replies were written.
#[derive(Clone, Copy)]
struct Served {
    stream: Stream,
    written: io::Result<()>,
}

// Serves block after block until the input ends, or reading or writing fails.
fn run(
    rt: &HostRuntime,
    input: &mut [u8],
    output: &mut [u8],
    table: &[u32],
    sink: &mut Sink,
) -> Result<(), Failure>
    requires { (carried < length input.old) × (max_reply ≤ length output.old) × ShiftTable table.now }
{
    let mut stream = feed::start();
    let mut source = Source::new(rt.stdin());
    for _ in 0..u64::MAX {
        let got = source
            .read_block(rt, input, stream.to)
            .map_err(Failure::Reading)?;
        if got == 0 {
            return finish(rt, stream, input, output, table, sink).map_err(Failure::Writing);
        }
        let served = serve(rt, stream, input, got, output, table, sink);
        served.written.map_err(Failure::Writing)?;
        stream = served.stream;
    }
    Ok(())
}

// Writes the replies to the lines that end in what was read.
fn serve(
    rt: &HostRuntime,
    opened: Stream,
    input: &mut [u8],
    got: usize,
    output: &mut [u8],
    table: &[u32],
    sink: &mut Sink,
) -> Served
    requires { Holds opened input.old × (opened.to + got ≤ length input.old) × ShiftTable table.now }
    ensures { Holds result.stream input.new × OnOk result.written (result.stream.to ≤ carried) }
{
    let mut stream = opened;
    let mut fresh = got;
    for _ in 0..u64::MAX {
        let block = feed::answer(stream, input, fresh, table, output);
        let laid = block.written;
        stream = block.stream;
        fresh = 0;
        let written = sink.write_all(rt, &output[..laid]);
        if written.is_err() || !block.more {
            return Served { stream, written };
        }
    }
    Served {
        stream,
        written: Err(io::Error::from(ErrorKind::Interrupted)),
    }
}

// Writes the reply to a last line that has no line end.
fn finish(
    rt: &HostRuntime,
    stream: Stream,
    input: &mut [u8],
    output: &mut [u8],
    table: &[u32],
    sink: &mut Sink,
) -> io::Result<()>
    requires { Holds stream input.old × (stream.to < length input.old) × (max_reply ≤ length output.old) × ShiftTable table.now }
{
    let written = feed::finish(stream, input, table, output);
    sink.write_all(rt, &output[..written])
}
