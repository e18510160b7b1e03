//! Tests of limits: their ranges, and how a fault tells the range.

use rb_desk::{Config, ConfigFault};
use std::process::Abort;
use std::test::Fail;

// Each limit: its fault, its name, and the most that it may be. The least is 1.
const LIMITS: [(ConfigFault, &str, u64); 6] = [
    (ConfigFault::Batch, "batch", 256),
    (ConfigFault::Window, "window", 64),
    (ConfigFault::Timeout, "timeout", 1_000_000_000),
    (ConfigFault::Capacity, "capacity", 16_777_216),
    (ConfigFault::Intake, "intake", 4_096),
    (ConfigFault::Appliers, "appliers", 16),
];

// These numbers are kept as limits, or this fault is found in them.
fn answers(rt: &impl Abort, numbers: [u64; 6], want: Option<ConfigFault>) {
    let [batch, window, timeout, capacity, intake, appliers] = numbers;
    match Config::new(batch, window, timeout, capacity, intake, appliers) {
        Ok(config) => {
            let kept = [
                config.batch(),
                config.window(),
                config.timeout(),
                config.capacity(),
                config.intake(),
                config.appliers(),
            ];
            assert_eq!(rt; kept, numbers);
            assert_eq!(rt; None, want);
        }
        Err(fault) => assert_eq!(rt; Some(fault), want),
    }
}

#[test]
fn ranges_of_limits(rt: HostRuntime) {
    answers(&rt, [1; 6], None);
    answers(&rt, [256, 64, 1_000_000_000, 16_777_216, 4_096, 16], None);
    for (place, (fault, _, most)) in LIMITS.iter().enumerate() {
        for number in [0, most.saturating_add(1)] {
            let mut numbers = [1; 6];
            if let Some(limit) = numbers.get_mut(place) {
                *limit = number;
            }
            answers(&rt, numbers, Some(*fault));
        }
    }
    // the first one that is out of its range
    answers(&rt, [1, 65, 1, 0, 1, 17], Some(ConfigFault::Window));
    answers(&rt, [1, 1, 1, 1, 0, 17], Some(ConfigFault::Intake));
}

#[test]
fn limits_say_their_range(rt: HostRuntime) -> Result<(), Fail> {
    let alloc = rt.alloc();
    for (fault, name, most) in &LIMITS {
        let said = format!(in alloc; "{fault}")?;
        let want = format!(in alloc; "{name} is 1 to {most}")?;
        assert_eq!(rt; said, want);
    }
    Ok(())
}
