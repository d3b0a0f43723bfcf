ghost use Rattle.std.specs.Prelude.{◌≡◌, IfOk, IfErr, None};
ghost use Rattle.answering.specs.Answer.{Run, RefusedFor, refusal_of, Answered, OneOutput};

use answers::Answer;
use columns::LINE;
use columns::wrong::WrongColumn;
use input::LONGEST;
use kinds::set_up::SetUp;
use output::{SheetRefusal, add_end, add_events, line_of_set_up};
use runs::events::Call;
use runs::run::Fault;
use sheet::calls::{WrongForm, read_calls};
use sheet::read::read_set_up;
use std::alloc::{AllocError, Global};

// Reads the text after the first line, makes its calls and writes a line for each, below that of the set-up.
fn run_on(heap: Global, set_up: SetUp, later: &[u8]) -> Result<Vec<u8>, Fault>
    ensures ran { IfOk result (λ out. Run set_up later.now out.items) }
    ensures accepted { IfOk result (λ _. refusal_of set_up ≡ None) }
    ensures refused { IfErr result (RefusedFor set_up) }
{
    let read = read_calls(heap, later)?;
    let calls: Vec<Call> = read.calls.iter().copied().map(Call::from).collect(heap)?;
    let ran = set_up.run(heap, &calls)?;
    let mut out = Vec::from_slice(heap, &line_of_set_up(set_up, 0))?;
    add_events(&mut out, ran.events())?;
    add_end(&mut out, read.wrong, ran.board())?;
    Ok(out)
}

// After a set-up that is refused nothing is read.
fn serve(heap: Global, set_up: SetUp, later: &[u8]) -> Result<Vec<u8>, Fault>
    ensures ran { IfOk result (λ out. Run set_up later.now out.items) }
    ensures accepted { IfOk result (λ _. refusal_of set_up ≡ None) }
    ensures refused { IfErr result (RefusedFor set_up) }
{
    match set_up.refusal() {
        Some(refusal) => Err(refusal.into()),
        None => run_on(heap, set_up, later),
    }
}

// The output of a sheet.
pub fn answer(heap: Global, text: &[u8]) -> Result<Vec<u8>, AllocError>
    ensures { IfOk result (λ out. Answered text.now out.items) }
{
    if text.len() > LONGEST {
        return Vec::from_slice(heap, &SheetRefusal::TooLong.to_line());
    }
    let set_up = match read_set_up(text) {
        Ok(set_up) => set_up,
        Err(WrongColumn(column)) => {
            let wrong = WrongForm { line: 1, column };
            return Vec::from_slice(heap, &SheetRefusal::WrongForm(wrong).to_line());
        }
    };
    match serve(heap, set_up, &text[LINE..]) {
        Ok(out) => Ok(out),
        Err(Fault::Refused(refusal)) => {
            Vec::from_slice(heap, &line_of_set_up(set_up, refusal.number()))
        }
        Err(Fault::Memory) => Err(AllocError),
    }
}

// A sheet has one output.
pub fn sheet_has_one_output()
    ensures { OneOutput }
{}
