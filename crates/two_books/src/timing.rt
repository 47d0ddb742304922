// How long something takes.
use std::io;
use std::time::Instant;

// What a function answers, and how many microseconds it took.
pub(crate) fn timed<T: Copy, F: FnOnce() -> T>(rt: &HostRuntime, f: F) -> io::Result<(T, u128)>
    requires { F.IsAlwaysCallable f }
{
    let start = Instant::now(rt)?;
    let answer = f();
    Ok((answer, start.elapsed(rt)?.as_micros()))
}
