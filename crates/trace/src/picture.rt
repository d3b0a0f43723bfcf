// The rack at the end: its stations, its board, and who is inside.
use crate::words::Numbered;
use answers::{Seen, View};
use feed::board::Register;
use lock::Lock;
use rack::calls::Rack;
use std::fmt;

fn draw_station(out: &mut impl fmt::Write, station: usize, seen: Seen) -> fmt::Result {
    let Seen { stage, count, last } = seen;
    write!(out, "  station {station}: {stage}, count {count}, ")?;
    match last {
        Some(verdict) => writeln!(out, "last {}", Numbered(verdict)),
        None => out.write_str("no verdict yet\n"),
    }
}

fn draw_pile<L: Lock>(out: &mut impl fmt::Write, rack: &Rack<L>, depth: i32) -> fmt::Result {
    if depth == 0 {
        return out.write_str(" empty\n");
    }
    for k in 1..=depth {
        let entry = rack.register(Register::Entry(k));
        write!(out, " {entry}")?;
    }
    out.write_str("\n")
}

fn draw_signer(out: &mut impl fmt::Write, signer: i32) -> fmt::Result {
    match signer {
        0 => out.write_str("  signer: nobody\n"),
        _ => writeln!(out, "  signer: station {signer}"),
    }
}

fn draw_inside(out: &mut impl fmt::Write, inside: Option<usize>) -> fmt::Result {
    match inside {
        Some(station) => writeln!(
            out,
            "  inside: station {station}, whose job may be half done"
        ),
        None => out.write_str("  inside: nobody\n"),
    }
}

pub fn draw<L: Lock>(out: &mut impl fmt::Write, rack: &Rack<L>, stations: usize) -> fmt::Result {
    out.write_str("The rack at the end:\n")?;
    for station in 1..=stations {
        if let Ok(seen) = rack.look(station) {
            draw_station(out, station, seen)?;
        }
    }
    let View {
        setpoint,
        depth,
        signer,
        inside,
    } = rack.board();
    write!(out, "  setpoint: {setpoint} kg/h\n  pile, newest last:")?;
    draw_pile(out, rack, depth)?;
    draw_signer(out, signer)?;
    draw_inside(out, inside)
}
