// Three tables of the paper that publishes the scheme: a tree of seven nodes, as the paper draws it, and three operations on it. Each line has an
// event's number in the paper and what it changes, before and after.
#![tactic(auto)]

use entry::Entry;
use std::{fmt, io};
use step::{Event, Kind};
use table::Table;
use terms::Refusal;

// What a node knows of object 0.
#[derive(Clone, Copy)]
struct Standing {
    node: u8,
    entry: Entry,
}

impl Standing {
    fn of(t: &Table, node: u8) -> Standing {
        Standing {
            node,
            entry: t.entry_at(node, 0),
        }
    }
}

impl fmt::Display for Standing {
    fn fmt<W: fmt::Write>(&self, f: &mut fmt::Formatter<W>) -> fmt::Result {
        match self.entry {
            Entry::Absent => write!(f, "p{} none", self.node),
            Entry::AtOwner(d) => { write!(f, "p{} RC={} MsgCtr={}", self.node, d.rc, d.msg_ctr.0) }
            Entry::Elsewhere(e) => write!(
                f,
                "p{} RC={} Presence={} MsgCtr={} RefWeight={}",
                self.node, e.rc, e.presence, e.msg_ctr.0, e.ref_weight.0,
            ),
        }
    }
}

// What one event of the paper changes at a node.
#[derive(Clone, Copy)]
struct Change {
    before: Standing,
    after: Standing,
}

impl fmt::Display for Change {
    fn fmt<W: fmt::Write>(&self, f: &mut fmt::Formatter<W>) -> fmt::Result {
        write!(f, "{} -> {}", self.before, self.after)
    }
}

fn step(t: &mut Table, kind: Kind, a: u8, b: u8, c: u8) -> Result<(), Refusal> {
    step::step(t, Event::new(kind, a, b, c, 0))?;
    Ok(())
}

// The event, and what it changes at a node.
fn changed(t: &mut Table, node: u8, kind: Kind, a: u8, b: u8, c: u8) -> Result<Change, Refusal> {
    let before = Standing::of(t, node);
    step(t, kind, a, b, c)?;
    Ok(Change {
        before,
        after: Standing::of(t, node),
    })
}

// A reference goes from one node to another, from root 0 into an empty root.
fn send_on(t: &mut Table, from: u8, to: u8, root: u8) -> Result<(), Refusal> {
    step(t, Kind::Send, from, 0, to)?;
    step(t, Kind::Receive, 0, root, 0)
}

// The tree: p1, p2 and p3 under p0; p4 under p1, p5 under p2, p6 under p3. Some references have gone home since.
fn tree() -> Result<Table, Refusal> {
    let mut t = Table::fresh();
    step(&mut t, Kind::New, 0, 0, 0)?;
    for (from, to) in [(0, 1), (0, 2), (0, 3), (1, 4), (2, 5), (3, 6)] {
        send_on(&mut t, from, to, 0)?;
    }
    for (from, root) in [(5, 1), (3, 2), (6, 3), (6, 4)] {
        send_on(&mut t, from, 0, root)?;
    }
    Ok(t)
}

// The node has let go of the object: its root is empty, and its entry unused.
fn let_go(t: &mut Table, node: u8) -> Result<(), Refusal> {
    step(t, Kind::Clear, node, 0, 0)?;
    step(t, Kind::Collect, node, 0, 0)
}

// The owner p0 sends to p3, which had stopped using its entry.
fn table_4() -> Result<[Change; 2], Refusal> {
    let mut t = tree()?;
    let_go(&mut t, 3)?;
    Ok([
        changed(&mut t, 0, Kind::Send, 0, 0, 3)?,
        changed(&mut t, 3, Kind::Receive, 0, 0, 0)?,
    ])
}

// p5 returns the reference to the owner p0.
fn table_5() -> Result<[Change; 2], Refusal> {
    let mut t = tree()?;
    Ok([
        changed(&mut t, 5, Kind::Send, 5, 0, 0)?,
        changed(&mut t, 0, Kind::Receive, 0, 5, 0)?,
    ])
}

// p6's entry is deleted; its decrement carries its return count to p3.
fn table_6() -> Result<[Change; 2], Refusal> {
    let mut t = tree()?;
    let_go(&mut t, 6)?;
    Ok([
        changed(&mut t, 6, Kind::Drop, 6, 0, 0)?,
        changed(&mut t, 3, Kind::Settle, 0, 0, 0)?,
    ])
}

// A table, its two lines named by the paper's numbers.
fn tell(
    rt: &impl Print,
    title: &str,
    numbers: [&str; 2],
    changes: Result<[Change; 2], Refusal>,
) -> io::Result<()> {
    println!(rt; "{title}")?;
    match changes {
        Ok(changes) => {
            for (number, change) in numbers.iter().zip(&changes) {
                println!(rt; "{number} {change}")?;
            }
            Ok(())
        }
        Err(_) => println!(rt; "refused"),
    }
}

fn main(rt: HostRuntime) -> io::Result<()> {
    tell(&rt, "Table 4", ["(1.1)", "(1.2)"], table_4())?;
    tell(&rt, "Table 5", ["(2.1)", "(2.2)"], table_5())?;
    tell(&rt, "Table 6", ["(3.1) (3.2)", "(3.3)"], table_6())
}
