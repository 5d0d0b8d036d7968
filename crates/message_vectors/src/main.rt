// Runs the stored cases over `reader::read`, a line for each: what the program `read_message` prints, and all that was
// read. A case is the message's length in two bytes and the message.
#![tactic(auto)]

use message::{Message, Series, Targets, fields};
use options::Span;
use options::locator::Locator;
use options::objective::Objective;
use options::outcome::Outcome;
use std::io::{self, Read, Write};

const MOST_CASES: usize = 1_000_000;

fn main(rt: HostRuntime) -> io::Result<()> {
    run_all(&mut rt.stdin(), &mut rt.stdout())
}

fn run_all(from: &mut impl Read, to: &mut impl Write) -> io::Result<()> {
    for _ in 0..MOST_CASES {
        if !run_next(from, to)? {
            return Ok(());
        }
    }
    Ok(())
}

// Reads a case and runs it; whether there was one.
fn run_next(from: &mut impl Read, to: &mut impl Write) -> io::Result<bool> {
    let mut header = [0u8; 2];
    if streams::read_full(from, &mut header)? < 2 {
        return Ok(false);
    }
    let mut content = [0u8; 4096];
    let Some(content) = content.get_mut(..u16::from_be_bytes(header) as usize) else {
        return Ok(true);
    };
    streams::read_full(from, content)?;
    run(to, content)?;
    Ok(true)
}

fn run(to: &mut impl Write, s: &[u8]) -> io::Result<()> {
    match reader::read(s) {
        Err(refusal) => write!(to, "refused {}", u8::from(refusal))?,
        Ok(m) => {
            write!(to, "kind {}", fields::kind_of(m))?;
            print_session(to, fields::session_of(m))?;
            print_message(to, s, m)?;
        }
    }
    to.write_all(b"\n")
}

fn print_session(to: &mut impl Write, session: Option<u32>) -> io::Result<()> {
    match session {
        None => Ok(()),
        Some(n) => write!(to, " session {n}"),
    }
}

// A word, and where a part begins and how long it is.
fn print_span(to: &mut impl Write, word: &str, span: Span) -> io::Result<()> {
    let Span { at, len } = span;
    write!(to, "{word} {at} {len}")
}

fn print_opening(to: &mut impl Write, initiator: Span, ttl: u32) -> io::Result<()> {
    print_span(to, " initiator", initiator)?;
    write!(to, " ttl {ttl}")
}

// What a message has after its session.
fn print_message(to: &mut impl Write, s: &[u8], m: Message) -> io::Result<()> {
    match m {
        Message::Noop => {}
        Message::Discovery {
            initiator,
            objective,
            ..
        } => {
            print_span(to, " initiator", initiator)?;
            print_objective(to, objective)?;
        }
        Message::Response {
            initiator,
            ttl,
            targets,
            extra,
            ..
        } => {
            print_opening(to, initiator, ttl)?;
            print_targets(to, s, targets)?;
            print_extra(to, extra)?;
        }
        Message::RequestNegotiation { objective, .. } => print_objective(to, objective)?,
        Message::RequestSynchronization { objective, .. } => print_objective(to, objective)?,
        Message::Negotiate { objective, .. } => print_objective(to, objective)?,
        Message::End { outcome, .. } => print_outcome(to, outcome)?,
        Message::Wait { time, .. } => write!(to, " wait {time}")?,
        Message::Synch { objective, .. } => print_objective(to, objective)?,
        Message::Flood {
            initiator,
            ttl,
            pairs,
            ..
        } => {
            print_opening(to, initiator, ttl)?;
            print_pairs(to, s, pairs)?;
        }
        Message::Invalid { item, .. } => print_item(to, item)?,
    }
    Ok(())
}

fn print_objective(to: &mut impl Write, o: Objective) -> io::Result<()> {
    let Objective {
        name,
        flags,
        count,
        count_at,
        value,
    } = o;
    print_span(to, " objective", name)?;
    // How far the value is from the count.
    let gap = value.at.saturating_sub(count_at);
    write!(to, " {flags} {count} {count_at} {gap}")?;
    print_span(to, "", value)
}

fn print_extra(to: &mut impl Write, extra: Option<Objective>) -> io::Result<()> {
    match extra {
        None => Ok(()),
        Some(objective) => print_objective(to, objective),
    }
}

fn print_outcome(to: &mut impl Write, outcome: Outcome) -> io::Result<()> {
    match outcome {
        Outcome::Accept => to.write_all(b" accept"),
        Outcome::Decline => to.write_all(b" decline"),
        Outcome::Reason(span) => print_span(to, " decline", span),
    }
}

fn print_item(to: &mut impl Write, item: Span) -> io::Result<()> {
    if item.len == 0 {
        return Ok(());
    }
    print_span(to, " item", item)
}

fn print_targets(to: &mut impl Write, s: &[u8], targets: Targets) -> io::Result<()> {
    match targets {
        Targets::Locators { series, .. } => {
            write!(to, " locators {}", series.many)?;
            print_locators(to, s, series)
        }
        Targets::Divert { series, .. } => {
            write!(to, " divert {}", series.many)?;
            print_locators(to, s, series)
        }
    }
}

fn print_locators(to: &mut impl Write, s: &[u8], series: Series) -> io::Result<()> {
    let mut at = series.at;
    for _ in 0..series.many {
        at = print_locator_at(to, s, at)?;
    }
    Ok(())
}

// The place after the locator at `at`.
fn print_locator_at(to: &mut impl Write, s: &[u8], at: usize) -> io::Result<usize> {
    match options::locator::read_at(s, at) {
        Err(_) => Ok(at),
        Ok(l) => {
            print_locator(to, l.value)?;
            Ok(at.wrapping_add(l.size))
        }
    }
}

fn print_locator(to: &mut impl Write, l: Locator) -> io::Result<()> {
    match l {
        Locator::V6 { at, protocol, port } => {
            write!(to, " v6 {at}")?;
            print_transport(to, protocol, port)
        }
        Locator::V4 { at, protocol, port } => {
            write!(to, " v4 {at}")?;
            print_transport(to, protocol, port)
        }
        Locator::Domain {
            name,
            protocol,
            port,
        } => {
            print_span(to, " domain", name)?;
            print_transport(to, protocol, port)
        }
        Locator::Uri {
            uri,
            protocol,
            port,
        } => {
            print_span(to, " uri", uri)?;
            print_transport(to, protocol, port)
        }
    }
}

fn print_transport(to: &mut impl Write, protocol: u8, port: u32) -> io::Result<()> {
    print_or_null(to, protocol as u32, 0)?;
    print_or_null(to, port, 65_536)
}

fn print_or_null(to: &mut impl Write, n: u32, null: u32) -> io::Result<()> {
    if n == null {
        return to.write_all(b" null");
    }
    write!(to, " {n}")
}

fn print_pairs(to: &mut impl Write, s: &[u8], series: Series) -> io::Result<()> {
    let Series { mut at, many } = series;
    write!(to, " pairs {many}")?;
    for _ in 0..many {
        at = print_pair_at(to, s, at)?;
    }
    Ok(())
}

// The place after the pair at `at`.
fn print_pair_at(to: &mut impl Write, s: &[u8], at: usize) -> io::Result<usize> {
    match options::pair::read_at(s, at) {
        Err(_) => Ok(at),
        Ok(p) => {
            print_objective(to, p.value.objective)?;
            print_tag(to, p.value.tag)?;
            Ok(at.wrapping_add(p.size))
        }
    }
}

fn print_tag(to: &mut impl Write, tag: Option<Locator>) -> io::Result<()> {
    match tag {
        None => to.write_all(b" nowhere"),
        Some(locator) => print_locator(to, locator),
    }
}
