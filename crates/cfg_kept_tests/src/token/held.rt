//! A caller that is held in its load, while another one is handed the published token.
ghost use Rattle.std.specs.Prelude.{◌≡◌, true};
ghost use Rattle.cfg_script.specs.Devices.{lists_of};
ghost use Rattle.cfg_script.specs.Script.{plain};
ghost use Rattle.cfg_token.specs.SsoTokens.{is_sso};
ghost use Rattle.cfg_world.specs.Script.{AllFit};

use crate::sections::settings;
use crate::token::sections::state;
use cfg_script::{Script, ScriptError, read_script};
use cfg_token::{CachedSsoToken, SharedTokenState};
use cfg_types::{Address, Bytes, Env, Fault, Finished, Instant, OutOfMemory, Reply, Request, Seq};
use cfg_world::{Devices, ScriptDevices, World};
use std::alloc::Global;
use std::sync::Wait;
use std::sync::atomic::{AtomicU64, Ordering};
use std::test::Fail;
use std::thread;
use std::thread::{Threads, join};

// Two callers tell each other how far they are.
struct Signs {
    // One of them is about to read its file.
    reads: AtomicU64,
    // The other has its answer.
    answered: AtomicU64,
}

impl Drop for Signs {
    fn drop(self) {
        let Signs {
            reads: _,
            answered: _,
        } = self;
    }
}

// Whether a sign comes within a million turns, each of which gives up the processor.
fn awaits(sign: &AtomicU64) -> bool {
    for _ in 0..1_000_000u32 {
        if sign.load(Ordering::SeqCst) == 1 {
            return true;
        }
        thread::yield_now();
    }
    false
}

// Other devices, of which a reading of a file waits until the other caller has its answer.
#[derive(Drop)]
struct HeldDevices<'a, D: Devices> {
    inner: D,
    signs: &'a Signs,
    // The other caller had its answer by the time.
    in_time: bool,
}

impl<'a, D: Devices> Devices for HeldDevices<'a, D> {
    ghost faults = { λ h. D.faults h.inner };

    ghost allows = { λ h. D.allows h.inner };

    ghost stands = { λ h. D.stands h.inner };

    ghost stands_allowed = { λ h entries s. D.stands_allowed h.inner entries s };

    fn now(&mut self) -> Instant {
        self.inner.now()
    }

    fn jitter(&mut self) -> u64 {
        self.inner.jitter()
    }

    fn read(&mut self, path: &str) -> Result<Bytes, Fault> {
        self.signs.reads.store(1, Ordering::SeqCst);
        self.in_time = awaits(&self.signs.answered);
        self.inner.read(path)
    }

    fn write(&mut self, path: &str, bytes: &[u8]) -> Result<(), Fault> {
        self.inner.write(path, bytes)
    }

    fn run(&mut self, command: &str) -> Result<Finished, Fault> {
        self.inner.run(command)
    }

    fn look_up(&mut self, host: &str) -> Result<Seq<Address>, Fault> {
        self.inner.look_up(host)
    }

    fn send(&mut self, request: &Request) -> Result<Reply, Fault> {
        self.inner.send(request)
    }
}

// How much a section asked.
fn asked<R: Wait, D: Devices>(
    rt: &R,
    shared: &SharedTokenState<CachedSsoToken>,
    env: &Env,
    world: &mut World<D>,
) -> usize
    requires { is_sso shared.now.key ≡ true }
{
    let _answer = shared.section(rt, env, &settings(), world);
    world.journal().len()
}

// The caller that is held: how much it asked, and whether the other had its answer meanwhile.
fn held<R: Wait>(
    rt: &R,
    alloc: Global,
    shared: &SharedTokenState<CachedSsoToken>,
    env: &Env,
    devices: HeldDevices<'_, ScriptDevices>,
) -> (usize, bool)
    requires { is_sso shared.now.key ≡ true }
{
    let mut world = World::new(alloc, devices);
    let asked = asked(rt, shared, env, &mut world);
    (asked, world.into_devices().in_time)
}

// The caller that comes meanwhile.
fn meanwhile<R: Wait>(
    rt: &R,
    shared: &SharedTokenState<CachedSsoToken>,
    env: &Env,
    signs: &Signs,
    world: &mut World<ScriptDevices>,
) -> usize
    requires { is_sso shared.now.key ≡ true }
{
    let _reads = awaits(&signs.reads);
    let asked = asked(rt, shared, env, world);
    signs.answered.store(1, Ordering::SeqCst);
    asked
}

fn both<R: Threads + Wait + Sync>(
    rt: &R,
    alloc: Global,
    shared: &SharedTokenState<CachedSsoToken>,
    env: &Env,
    signs: &Signs,
    devices: ScriptDevices,
    mut world: World<ScriptDevices>,
) -> ((usize, bool), usize)
    requires { is_sso shared.now.key ≡ true }
{
    let devices = HeldDevices {
        inner: devices,
        signs,
        in_time: false,
    };
    join(
        rt,
        || -> (usize, bool)
            requires { is_sso shared.now.key ≡ true }
        { held(rt, alloc, shared, env, devices) },
        || -> usize
            requires { is_sso shared.now.key ≡ true }
        { meanwhile(rt, shared, env, signs, &mut world) },
    )
}

// A token is loaded; then one caller finds it used up and loads it anew, and another finds it lasting.
fn words_by<R: Threads + Wait + Sync>(
    rt: &R,
    alloc: Global,
    early: Script,
    late: Script,
) -> Result<String, OutOfMemory>
    requires early { AllFit (lists_of (plain early)) }
    requires late { AllFit (lists_of (plain late)) }
{
    let env = Env::new(alloc, early.variables)?;
    let mut world = World::new(alloc, ScriptDevices::new(alloc, early.devices)?);
    let devices = ScriptDevices::new(alloc, late.devices)?;
    let shared = SharedTokenState::new(state(alloc)?);
    let first = asked(rt, &shared, &env, &mut world);
    world.clear_journal();
    let signs = Signs {
        reads: AtomicU64::new(0),
        answered: AtomicU64::new(0),
    };
    let ((late, in_time), early) = both(rt, alloc, &shared, &env, &signs, devices, world);
    Ok(format!(in alloc; "{first} {early} {late} {in_time}")?)
}

fn words_of<R: Threads + Wait + Sync>(
    rt: &R,
    alloc: Global,
    early: &str,
    late: &str,
) -> Result<String, ScriptError> {
    let early = read_script(alloc, early.as_bytes())?;
    let late = read_script(alloc, late.as_bytes())?;
    Ok(words_by(rt, alloc, early, late)?)
}

#[test]
fn a_published_token_waits_for_no_load(rt: HostRuntime) -> Result<(), Fail> {
    let early =
        r#"{"variables":[["HOME","/home/u"]],"clock":[0],"files":[["/home/u/.aws/sso/cache/a9993e364706816aba3e25717850c26c9cd0d89d.json","{\"accessToken\":\"t\",\"expiresAt\":\"1970-01-01T01:00:00Z\"}"]]}"#;
    let late =
        r#"{"clock":[3300],"files":[["/home/u/.aws/sso/cache/a9993e364706816aba3e25717850c26c9cd0d89d.json","{\"accessToken\":\"t\",\"expiresAt\":\"1970-01-01T01:00:00Z\"}"]]}"#;
    let words = words_of(&rt, rt.alloc(), early, late)?;
    assert_eq!(rt; words.as_str(), "3 1 3 true");
    Ok(())
}
