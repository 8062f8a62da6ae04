//! A cache whose loader is ours: the first `get` of a name loads its greeting, the next one finds it.
#![tactic(auto)]

ghost use Rattle.std.specs.Prelude.{◌≡◌, true};
ghost use Rattle.jc.specs.Words.{is_answer_to};

use jc::{
    Answer, CacheConfig, CacheId, Call, Engine, Key, ListRing, ListRows, ProcessorFault, Request,
    Step, Value, reply_text,
};
use std::alloc::Global;
use std::process::ExitCode;

/// What the cache is answered: to a load a greeting, or nothing where no memory is found for it. It is always of the
/// kind that the request awaits, so `resume` never refuses it for that.
fn answer(alloc: Global, request: Request) -> Answer
    ensures { is_answer_to request result ≡ true }
{
    match request {
        Request::Load(name) => {
            let text = format!(in alloc; "Hello, {}!", name.text()).ok();
            Answer::Loaded(text.and_then(|text| Value::new(alloc, text.into_bytes()).ok()))
        }
        Request::Write(_, _) | Request::Delete(_) => Answer::WriteFailed,
        Request::Process { .. } => Answer::Processed(Err(ProcessorFault {})),
        Request::Tell(_) => Answer::Told,
    }
}

/// Gets one name at three moments, in milliseconds, and prints each reply.
fn greet(rt: &HostRuntime) -> Option<()> {
    let (alloc, cache, ann) = (rt.alloc(), CacheId::new(0), Key::from_text("ann").ok()?);
    let config = CacheConfig::new(alloc, Key::from_text("greetings").ok()?, 100)
        .expire_after_creation(60_000)
        .read_through();
    let caches = vec![in alloc; config].ok()?;
    let mut manager = Engine::<ListRows, ListRing>::open(alloc, ListRows::new(alloc), caches).ok()?;
    for now in [0, 59_999, 60_000] {
        let step = match manager.begin(cache, now, Call::Get(ann)).ok()? {
            Step::Need(request) => manager.resume(cache, answer(alloc, request)).ok()?,
            step => step,
        };
        let Step::Done(reply) = step else { return None };
        println!(rt; "{now}: {}", reply_text(alloc, &reply).ok()?).ok()?;
    }
    Some(())
}

fn main(rt: HostRuntime) -> ExitCode {
    greet(&rt).map_or(ExitCode::FAILURE, |()| ExitCode::SUCCESS)
}
