use crate::setpoint_answer;

// No contract can say that there is memory. What stands in the buffer then is proved.
#[test]
fn a_sheet_finds_memory(rt: HostRuntime) {
    let sheet = b"B  1  200000\nS  1       0\n";
    let mut buffer = [0; 65];
    let mut length = 0;
    let outcome = setpoint_answer(rt.alloc(), sheet, &mut buffer, &mut length);
    assert_eq!(rt; outcome, 0);
    assert_eq!(rt; length, 65);
}
