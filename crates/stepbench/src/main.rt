// Many events in memory, for bench/step to time: twelve events, over and over. Each round ends with an empty field.
#![tactic(auto)]

use std::io;
use step::{Event, Kind};
use table::Table;

const ROUNDS: u32 = 2000;

fn main(rt: HostRuntime) -> io::Result<()> {
    let round = [
        Event::new(Kind::New, 0, 0, 0, 0),
        Event::new(Kind::Send, 0, 0, 3, 0),
        Event::new(Kind::Receive, 0, 0, 0, 0),
        Event::new(Kind::Send, 3, 0, 0, 0),
        Event::new(Kind::Receive, 0, 1, 0, 0),
        Event::new(Kind::Clear, 3, 0, 0, 0),
        Event::new(Kind::Collect, 3, 0, 0, 0),
        Event::new(Kind::Drop, 3, 0, 0, 0),
        Event::new(Kind::Settle, 0, 0, 0, 0),
        Event::new(Kind::Clear, 0, 0, 0, 0),
        Event::new(Kind::Clear, 0, 1, 0, 0),
        Event::new(Kind::Collect, 0, 0, 0, 0),
    ];
    let mut t = Table::fresh();
    for _ in 0..ROUNDS {
        for e in round {
            // A refused event leaves the table as it was, so the count tells whether any was.
            let _ = step::step(&mut t, e);
        }
    }
    println!(rt; "accepted {}", t.count)
}
