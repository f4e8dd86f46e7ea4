// Event records from standard input, the run that they make to standard output. All that decides anything is `run::run`.
#![tactic(auto)]

use input::read_full;
use std::io;

// 4,096 event records of eight bytes, and one byte more, by which a 4,097th is seen.
const INPUT: usize = 32769;

fn main(rt: HostRuntime) -> io::Result<()> {
    let mut records = [0u8; INPUT];
    let got = read_full(&mut rt.reader(), &mut records)?;
    let mut out = [0u8; run::TEXT];
    let Ok(told) = run::run(&records[..got], &mut out) else {
        unreachable!()
    };
    rt.write_all(&out[..told.length])
}
