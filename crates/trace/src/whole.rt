// A whole sheet told: its set-up, its calls, the line of wrong form if there is one, and the rack at the end.
use crate::access::Tells;
use crate::picture::draw;
use crate::telling::tell_call;
use crate::words::tell_refusal;
use crate::wrong::{tell_too_long, tell_wrong};
use answers::Refusal;
use columns::LINE;
use columns::wrong::WrongColumn;
use fast::Fast;
use input::LONGEST;
use kinds::LockKind;
use kinds::set_up::SetUp;
use lock::Lock;
use lock::count::WrongStationCount;
use one_bit::OneBit;
use rack::calls::Rack;
use sheet::calls::{WrongForm, read_calls};
use sheet::read::read_set_up;
use std::alloc::Global;
use std::fmt;

fn tell_set_up(out: &mut impl fmt::Write, set_up: SetUp) -> fmt::Result {
    let SetUp {
        kind,
        stations,
        start,
    } = set_up;
    write!(
        out,
        "line 1: a rack with the {kind} lock, N = {stations}, start {start} kg/h: "
    )
}

fn rack_on<L: Lock + Drop>(
    lock: Result<L, WrongStationCount>,
    start: u32,
) -> Result<Rack<L>, Refusal> {
    Rack::set_up(lock?, start)
}

// Makes and tells the calls of the text, up to its end or to a line of wrong form.
fn tell_calls<L: Tells>(
    out: &mut impl fmt::Write,
    heap: Global,
    rack: &mut Rack<L>,
    text: &[u8],
) -> anyhow::Result<()> {
    let read = read_calls(heap, text.get(LINE..).unwrap_or(&[]))?;
    for (line, call) in (2..).zip(&read.calls) {
        tell_call(out, rack, line, *call)?;
    }
    if let Some(wrong) = read.wrong {
        tell_wrong(out, text, wrong)?;
    }
    Ok(())
}

// The sheet from what came of its set-up on. After a set-up that is refused nothing is read.
fn tell_on<L: Tells + Drop>(
    out: &mut impl fmt::Write,
    heap: Global,
    set_up: SetUp,
    lock: Result<L, WrongStationCount>,
    text: &[u8],
) -> anyhow::Result<()> {
    match rack_on(lock, set_up.start) {
        Ok(mut rack) => {
            out.write_str("set up (0)\n")?;
            tell_calls(out, heap, &mut rack, text)?;
            draw(out, &rack, set_up.stations)?;
        }
        Err(refusal) => tell_refusal(out, refusal)?,
    }
    Ok(())
}

pub fn tell_sheet(out: &mut impl fmt::Write, heap: Global, text: &[u8]) -> anyhow::Result<()> {
    if text.len() > LONGEST {
        return Ok(tell_too_long(out)?);
    }
    match read_set_up(text) {
        Ok(set_up) => {
            tell_set_up(out, set_up)?;
            let stations = set_up.stations;
            match set_up.kind {
                LockKind::Fast => tell_on(out, heap, set_up, Fast::new(stations), text),
                LockKind::OneBit => tell_on(out, heap, set_up, OneBit::new(stations), text),
            }
        }
        Err(WrongColumn(column)) => Ok(tell_wrong(out, text, WrongForm { line: 1, column })?),
    }
}
