//! Leads a line over two queues through as many messages as its first argument says. With `speed` as its second argument it
//! also prints how many calls it made in a second of the processor's time.
#![tactic(auto)]

mod day;

use crate::day::messages_carried;
use std::time::CpuClock;
use std::{env, io};

fn main(rt: HostRuntime) -> io::Result<()> {
    let mut words = env::args(&rt)?.skip(1);
    let messages = words
        .next()
        .and_then(|word| word.parse::<u32>().ok())
        .unwrap_or(0);
    let timed = words.next().is_some_and(|word| word.as_str() == "speed");
    let start = rt.process_cpu_time()?;
    let calls = messages_carried(messages).unwrap_or(0);
    let used = rt.process_cpu_time()?.saturating_sub(start);
    println!(rt; "{messages} messages in {calls} calls")?;
    if timed {
        let second = u128::from(calls) * 1_000_000_000;
        println!(rt; "{} calls a second", second / used.as_nanos().max(1))?;
    }
    Ok(())
}
