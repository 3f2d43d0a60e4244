//! The system's clock.

use host_outside::StdClock;
use outside::Clock;
use std::test::Fail;
use std::thread::sleep;
use std::time::Duration;

// Two readings that are more than a second apart differ, and the later one is not the lower. The first is behind the year 2023. A copy goes on as the clock does.
#[test]
fn a_clock_goes_on(rt: HostRuntime) -> Result<(), Fail> {
    let mut clock = StdClock::new(&rt);
    let first = clock.second();
    let copy = clock;
    sleep(&rt, Duration::from_millis(1_100));
    let shown = copy.present();
    let second = clock.second();
    assert!(&rt;
        1_700_000_000 < first
            && first < shown
            && shown <= second
            && second < first.saturating_add(60)
    );
    Ok(())
}
