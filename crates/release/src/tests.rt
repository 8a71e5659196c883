use crate::{Early, Late, forecast_end};
use limits::{Refusal, Task};

#[test]
fn early_ends_before_late(rt: HostRuntime) {
    let task = Task {
        load: 5,
        limit: 2,
        period: 4,
    };
    assert_eq!(rt; forecast_end(&Late, 10, task), Ok(24));
    assert_eq!(rt; forecast_end(&Early, 10, task), Ok(20));
}

#[test]
fn no_end_past_the_horizon(rt: HostRuntime) {
    let mut task = Task {
        load: 1,
        limit: 1,
        period: 4,
    };
    assert_eq!(rt;
        forecast_end(&Late, 999_999_999_996, task),
        Ok(1_000_000_000_000)
    );
    task.period = 8;
    assert_eq!(rt;
        forecast_end(&Late, 999_999_999_996, task),
        Err(Refusal::ForecastPastHorizon)
    );
}
