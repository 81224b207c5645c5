// Reads rows of hexadecimal digits from standard input, and says each in words or names its first wrong byte.
#![tactic(auto)]

use dump::{Tally, describe};
use std::alloc::Global;
use std::io;
use std::io::{BufRead, BufReader, BufWriter, Write};

// From input to output, through the buffer that each line takes in turn.
#[derive(Drop)]
struct Session<R, W> {
    heap: Global,
    input: R,
    line: Vec<u8>,
    output: W,
    tally: Tally,
}

impl<R: BufRead, W: Write> Session<R, W> {
    // One line; false at the end of the input.
    fn one_line(&mut self) -> io::Result<bool> {
        self.line.clear();
        if self.input.read_until(b'\n', &mut self.line)? == 0 {
            return Ok(false);
        }
        let described = describe(self.heap, self.line.as_slice())?;
        // not by `writeln!`, with which a line that is no row takes half as long again
        self.output.write_all(described.text.as_bytes())?;
        self.output.write_all(b"\n")?;
        self.tally.count(described.form);
        Ok(true)
    }

    // Every line, and then how many there were.
    fn run(&mut self) -> io::Result<()> {
        // The input ends the loop, but a loop is proved to end by itself: this bound is out of reach.
        for _ in 0..u64::MAX {
            if !self.one_line()? {
                break;
            }
        }
        let summary = self.tally.summary(self.heap)?;
        writeln!(self.output, "{summary}")?;
        self.output.flush()
    }
}

fn run(rt: &HostRuntime) -> io::Result<()> {
    let heap = rt.alloc();
    let mut session = Session {
        heap,
        input: BufReader::new(heap, rt.stdin())?,
        line: Vec::new(heap),
        output: BufWriter::new(heap, rt.stdout())?,
        tally: Tally::new(),
    };
    session.run()
}

fn main(rt: HostRuntime) -> io::Result<()> {
    if let Err(error) = run(&rt) {
        eprintln!(rt; "msgdump: {error}")?;
        return Err(error);
    }
    Ok(())
}
