use crate::calls::{Call, Outcome};
use crate::playing::play;
use limits::{Refusal, Task};
use queues::Row;
use release::Late;
use std::test::Fail;

// An action of three ticks that arrives on a boundary, played up to its end, and one call refused.
#[test]
fn ends_where_forecast(rt: HostRuntime) -> Result<(), Fail> {
    let calls = [
        Call::Admit {
            server: 1,
            cap: 500_000,
        },
        Call::Start {
            server: 1,
            task: Task {
                load: 3,
                limit: 2,
                period: 4,
            },
        },
        Call::Advance { count: 9 },
        Call::Advance { count: 9 },
        Call::Tick,
        Call::Leave { server: 1 },
        Call::Advance { count: 9 },
    ];
    let answers = play(rt.alloc(), Late, Row::new(), Row::new(), &calls)?;
    assert_eq!(rt; answers.len(), 7);
    match answers[1] {
        Ok(Outcome::Started(end)) => assert_eq!(rt; end, 8),
        _ => return Err(Fail::new("not started")),
    }
    match answers[4] {
        Ok(Outcome::Ticked(tick)) => assert_eq!(rt; tick.served, Some(1)),
        _ => return Err(Fail::new("not ticked")),
    }
    match answers[5] {
        Err(why) => assert_eq!(rt; why, Refusal::ActionAtWork),
        _ => return Err(Fail::new("left while at work")),
    }
    match answers[6] {
        Ok(Outcome::Advanced(run)) => {
            assert_eq!(rt; run.ticks, 3);
            assert_eq!(rt; run.sets.ended.word, 1);
            Ok(())
        }
        _ => Err(Fail::new("not advanced")),
    }
}
