use answers::{Answer, Refusal, Served};
use bus::Access;
use fast::Fast;
use fast::register::Register;
use feed::job::{Job, Verdict};
use input::read_sheet;
use lock::Lock;
use lock::count::WrongStationCount;
use lock::stage::Stage;
use one_bit::OneBit;
use rack::calls::Rack;
use std::alloc::Global;
use std::io::Read;
use std::test::Fail;

// A rack with a lock that was made, if it was.
fn rack_on<L: Lock + Drop>(
    lock: Result<L, WrongStationCount>,
    start: u32,
) -> Result<Rack<L>, Refusal> {
    Rack::set_up(lock?, start)
}

// The number of a refused set-up, 0 for one that is taken.
fn set_up_number<L: Lock + Drop>(lock: Result<L, WrongStationCount>, start: u32) -> u8 {
    rack_on(lock, start).map(|_| ()).number()
}

// Orders a job of station 1 and serves the station until it rests: the verdict, if it comes to one and to rest.
fn verdict<L: Lock>(rack: &mut Rack<L>, job: Job) -> Result<Option<Verdict>, Refusal> {
    rack.order(1, job)?;
    let mut verdict = None;
    for _ in 0..30 {
        match rack.slot(1)? {
            Served::Ended(end) => verdict = Some(end),
            Served::NowResting => return Ok(verdict),
            _ => {}
        }
    }
    Ok(None)
}

#[test]
fn set_ups_at_their_bounds(rt: HostRuntime) {
    assert_eq!(rt; set_up_number(OneBit::new(16), 400_000), 0);
    assert_eq!(rt; set_up_number(Fast::new(1), 0), 0);
    assert_eq!(rt; set_up_number(OneBit::new(0), 0), 1);
    assert_eq!(rt; set_up_number(Fast::new(17), 400_001), 1);
    assert_eq!(rt; set_up_number(Fast::new(16), 400_001), 2);
}

#[test]
fn orders_and_slots_are_refused_in_order(rt: HostRuntime) -> Result<(), Fail> {
    let mut rack = rack_on(OneBit::new(2), 1_000)?;
    assert_eq!(rt; rack.order(0, Job::Trim(0)).number(), 3);
    assert_eq!(rt; rack.order(3, Job::Sign(-1)).number(), 3);
    assert_eq!(rt; rack.order(1, Job::Trim(0)).number(), 4);
    assert_eq!(rt; rack.order(1, Job::Trim(201)).number(), 4);
    assert_eq!(rt; rack.order(1, Job::Trim(-201)).number(), 4);
    assert_eq!(rt; rack.order(1, Job::Sign(-1)).number(), 5);
    assert_eq!(rt; rack.order(1, Job::Sign(400_001)).number(), 5);
    assert_eq!(rt; rack.slot(3).number(), 3);
    assert_eq!(rt; rack.slot(1).number(), 7);
    assert_eq!(rt; rack.order(1, Job::Trim(-200)).number(), 0);
    assert_eq!(rt; rack.order(1, Job::Trim(0)).number(), 4);
    assert_eq!(rt; rack.order(1, Job::Undo).number(), 6);
    assert_eq!(rt; rack.order(2, Job::Trim(200)).number(), 0);
    assert_eq!(rt; rack.slot(2).number(), 10);
    Ok(())
}

#[test]
fn the_sixty_fifth_trim_finds_the_pile_full(rt: HostRuntime) -> Result<(), Fail> {
    let mut rack = rack_on(Fast::new(1), 0)?;
    for _ in 0..64 {
        assert_eq!(rt; verdict(&mut rack, Job::Trim(1))?, Some(Verdict::Done));
    }
    assert_eq!(rt; rack.board().depth, 64);
    assert_eq!(rt; verdict(&mut rack, Job::Trim(1))?, Some(Verdict::PileFull));
    assert_eq!(rt; verdict(&mut rack, Job::Undo)?, Some(Verdict::Done));
    assert_eq!(rt; rack.board().depth, 63);
    Ok(())
}

// Station 2 waits while station 1 is inside.
#[test]
fn a_count_stops_at_its_bound(rt: HostRuntime) -> Result<(), Fail> {
    let mut rack = rack_on(OneBit::new(2), 1_000)?;
    assert_eq!(rt; rack.order(1, Job::Undo).number(), 0);
    assert_eq!(rt; rack.slot(1).number(), 10);
    assert_eq!(rt; rack.slot(1).number(), 11);
    assert_eq!(rt; rack.order(2, Job::Undo).number(), 0);
    for _ in 0..65_540 {
        assert_eq!(rt; rack.slot(2).number(), 10);
    }
    let seen = rack.look(2)?;
    assert_eq!(rt; seen.count, 65_535);
    assert_eq!(rt; seen.stage, Stage::Trying);
    Ok(())
}

// Station 2 sees the flag of station 1, lowers its own, and enters once station 1 has left.
#[test]
fn under_the_one_bit_lock_the_lower_goes_first(rt: HostRuntime) -> Result<(), Fail> {
    let mut lock = OneBit::new(2)?;
    assert!(rt; lock.begin(1) && lock.begin(2));
    for i in [1, 2, 2, 1, 2, 1, 2] {
        assert!(rt; lock.turn(i));
    }
    assert_eq!(rt; lock.stage(1), Some(Stage::Inside));
    assert_eq!(rt; lock.stage(2), Some(Stage::Trying));
    assert!(rt; lock.end(1));
    for i in [1, 2, 2, 2] {
        assert!(rt; lock.turn(i));
    }
    assert_eq!(rt; lock.stage(1), Some(Stage::Rest));
    assert_eq!(rt; lock.stage(2), Some(Stage::Inside));
    assert_eq!(rt; lock.stage(3), None);
    Ok(())
}

// The three-station run that breaks a lock which skips the look at the flags: station 1 is inside, and station 2 waits for its flag.
#[test]
fn under_the_fast_lock_the_second_waits_for_the_flag(rt: HostRuntime) -> Result<(), Fail> {
    let mut lock = Fast::new(3)?;
    assert!(rt; lock.begin(1) && lock.begin(2) && lock.begin(3));
    for station in [1, 2, 3, 2, 1, 1, 2, 1, 2] {
        assert!(rt; lock.turn(station));
        assert_eq!(rt; lock.stage(station), Some(Stage::Trying));
    }
    assert!(rt; lock.turn(1));
    assert_eq!(rt; lock.stage(1), Some(Stage::Inside));
    for station in [3, 2, 2, 2] {
        assert!(rt; lock.turn(station));
    }
    assert_eq!(rt; lock.stage(2), Some(Stage::Trying));
    assert_eq!(rt; lock.next_access(2), Some(Access::Read(Register::Flag(1))));
    Ok(())
}

// How many of so many bytes are taken for a sheet, and how many are left.
fn taken_and_left(heap: Global, length: usize) -> Result<(usize, usize), Fail> {
    let bytes = vec![in heap; b'S'; length]?;
    let mut rest = bytes.as_slice();
    let taken = read_sheet(heap, &mut rest)?.len();
    Ok((taken, rest.len()))
}

#[test]
fn no_more_is_taken_than_tells_that_a_sheet_is_too_long(rt: HostRuntime) -> Result<(), Fail> {
    assert_eq!(rt; taken_and_left(rt.alloc(), 0)?, (0, 0));
    assert_eq!(rt; taken_and_left(rt.alloc(), 65_000)?, (65_000, 0));
    assert_eq!(rt; taken_and_left(rt.alloc(), 65_001)?, (65_001, 0));
    assert_eq!(rt; taken_and_left(rt.alloc(), 70_000)?, (65_001, 4_999));
    Ok(())
}

// The reader gives the sheet in two parts.
#[test]
fn all_bytes_of_a_sheet_are_taken(rt: HostRuntime) -> Result<(), Fail> {
    let start: &[u8] = b"B  1  200";
    let rest: &[u8] = b"000\nS  1       0\n";
    let taken = read_sheet(rt.alloc(), start.chain(rest))?;
    assert_eq!(rt;
        taken.as_slice(),
        b"B  1  200000\nS  1       0\n".as_slice()
    );
    Ok(())
}
