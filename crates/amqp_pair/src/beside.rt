//! A thread beside this one.
use std::sync::Wait;
use std::thread;
use std::thread::Threads;

/// Calls `f` in a thread of its own, and `g` in this one, which is told whether the thread was made. Where the system makes none, `f` is called behind `g`.
/// The answers of both, and whether the thread was made.
pub fn beside<R, F, G, A, B>(rt: &R, f: F, g: G) -> (A, B, bool)
where
    R: Threads + Wait + Sync,
    F: FnOnce() -> A + Send,
    G: FnOnce(bool) -> B,
    A: Send + Drop,
    requires { F.pre f × G.IsAlwaysCallable g }
{
    thread::scope(
        thread::scope_env(),
        rt,
        |scope| -> (A, B, bool)
            requires { F.pre f × G.IsAlwaysCallable g }
        {
            match scope.spawn(f) {
                Ok(handle) => {
                    let here = g(true);
                    (handle.join(rt), here, true)
                }
                Err(unmade) => {
                    let here = g(false);
                    let f = unmade.value;
                    (f(), here, false)
                }
            }
        },
    )
}

/// As `beside`, but where the system makes no thread `f` is dropped with all that it owns before `g` is called, and has no answer.
pub fn beside_if_made<R, F, G, A, B>(rt: &R, f: F, g: G) -> (Option<A>, B)
where
    R: Threads + Wait + Sync,
    F: FnOnce() -> A + Send + Drop,
    G: FnOnce() -> B,
    A: Send + Drop,
    requires { F.pre f × G.pre g }
{
    thread::scope(
        thread::scope_env(),
        rt,
        |scope| -> (Option<A>, B)
            requires { F.pre f × G.pre g }
        {
            match scope.spawn(f) {
                Ok(handle) => {
                    let here = g();
                    (Some(handle.join(rt)), here)
                }
                Err(unmade) => {
                    drop(unmade);
                    (None, g())
                }
            }
        },
    )
}
