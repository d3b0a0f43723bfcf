use crate::Fast;
use crate::place::Place;
use lock::Lock;
use lock::stage::Stage;
use std::test::Fail;

// Stations 1 and 2 both find Y free. 1 has its number in X and is inside, though 2 has the last word in Y; 2 then waits for the flag of 1.
#[test]
fn the_one_in_x_goes_first(rt: HostRuntime) -> Result<(), Fail> {
    let mut lock = Fast::new(3)?;
    assert!(rt; lock.begin(1) && lock.begin(2) && lock.begin(3));
    for i in [1, 2, 3, 2, 1, 1, 2, 1, 2] {
        assert!(rt; lock.turn(i));
        assert_eq!(rt; lock.stage(1), Some(Stage::Trying));
        assert_eq!(rt; lock.stage(2), Some(Stage::Trying));
        assert_eq!(rt; lock.stage(3), Some(Stage::Trying));
    }
    assert!(rt; lock.turn(1));
    assert_eq!(rt; lock.stage(1), Some(Stage::Inside));
    for i in [3, 2, 2, 2] {
        assert!(rt; lock.turn(i));
    }
    assert_eq!(rt; lock.place(2), Place::Scan(1));
    assert_eq!(rt; lock.stage(2), Some(Stage::Trying));
    Ok(())
}
