ghost use Rattle.std.specs.Prelude.{◌≡◌, ◌^◌, ◌<◌};
ghost use Rattle.columns.specs.Field.{size_of, number_of};
ghost use Rattle.sheet.specs.Line.{SetUpRead, CallRead, OneSetUp, OneCall};

use crate::line::Call;
use columns::field::{Content, Form};
use columns::read::read_fields;
use columns::wrong::WrongColumn;
use feed::job::Job;
use kinds::LockKind;
use kinds::set_up::SetUp;

// The number that a field holds.
fn number_of(value: Content) -> i32
    requires { size_of value < 10 ^ 8 }
    ensures { result ≡ number_of value }
{
    match value {
        Content::Negative(n) => -(n as i32),
        _ => value.size() as i32,
    }
}

// Reads the first line of a sheet: what it says, or its wrong column.
pub fn read_set_up(text: &[u8]) -> Result<SetUp, WrongColumn>
    ensures { SetUpRead text.now result }
{
    let [letter, rest @ ..] = text else {
        return Err(WrongColumn(1));
    };
    let Ok(kind) = LockKind::try_from(*letter) else {
        return Err(WrongColumn(1));
    };
    let (stations, start) = read_fields(Form::Natural, rest)?;
    Ok(SetUp {
        kind,
        stations,
        start: start.size() as u32,
    })
}

// Reads a later line: what it says, or its wrong column.
pub fn read_call(text: &[u8]) -> Result<Call, WrongColumn>
    ensures { CallRead text.now result }
{
    let [letter, rest @ ..] = text else {
        return Err(WrongColumn(1));
    };
    match char::from(*letter) {
        'T' => {
            let (station, permille) = read_fields(Form::Signed, rest)?;
            Ok(Call::Order(station, Job::Trim(number_of(permille))))
        }
        'U' => {
            let (station, _) = read_fields(Form::Zero, rest)?;
            Ok(Call::Order(station, Job::Undo))
        }
        'G' => {
            let (station, value) = read_fields(Form::Natural, rest)?;
            Ok(Call::Order(station, Job::Sign(number_of(value))))
        }
        'S' => {
            let (station, _) = read_fields(Form::Zero, rest)?;
            Ok(Call::Slot(station))
        }
        _ => Err(WrongColumn(1)),
    }
}

// A legal line says one thing.
pub fn legal_line_says_one_thing()
    ensures first { OneSetUp }
    ensures later { OneCall }
{}
