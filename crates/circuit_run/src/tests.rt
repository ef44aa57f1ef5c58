// The last line of what is printed.
use crate::output::last_line;
use crate::report::Finish;
use pauli::fault::Fault;
use std::test::Fail;
use text::stop::Stop;

#[test]
fn last_lines(rt: HostRuntime) -> Result<(), Fail> {
    let finish = Finish {
        entries: 4,
        coins: 3,
        width: 1,
    };
    assert_eq!(rt; last_line(rt.alloc(), Ok(finish))?.as_str(), "E,4,3,1\n");
    let stop = Stop {
        line: 3,
        fault: Fault::BadQubit,
    };
    assert_eq!(rt; last_line(rt.alloc(), Err(stop))?.as_str(), "R,3,7\n");
    Ok(())
}
