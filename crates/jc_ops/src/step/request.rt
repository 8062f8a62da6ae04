//! What a step asks its hooks.
ghost use Rattle.std.specs.Prelude.{◌≡◌, ℕ, List, true, Some};
ghost use Rattle.jc_ops.specs.Lines.{handed, awaits_load, asks_writer, first_request};

use jc_model::call::{KeyCall, Op, Request};
use jc_model::config::CacheConfig;
use jc_model::key::Key;
use jc_model::table::Ask;
use jc_model::value::Value;

/// A request to the writer, who is given this value.
pub(crate) fn ask_writer(
    config: &CacheConfig,
    key: &Key,
    asks: Ask,
    copy: Option<Value>,
) -> Option<Request>
    ensures { result ≡ asks_writer config.now key.now asks copy }
{
    if !config.writer {
        return None;
    }
    match asks {
        Ask::Write => match copy {
            Some(value) => Some(Request::Write(*key, value)),
            None => None,
        },
        Ask::Delete => Some(Request::Delete(*key)),
        _ => None,
    }
}

/// Whether the loader is asked before this processor: not where the key's entry is known, by its row or by the loader's
/// answer.
pub(crate) fn awaits_load(config: &CacheConfig, processor: u8, known: bool) -> bool
    ensures { result ≡ awaits_load config.now processor known }
{
    if known {
        return false;
    }
    match config.processors.items().get(processor as usize) {
        Some(wants) => *wants && config.loader,
        None => false,
    }
}

/// A key's entry for its processor.
pub(crate) fn process(
    key: &Key,
    processor: u8,
    value: Option<Value>,
    argument: Option<Value>,
) -> Option<Request>
    ensures { (v : List ℕ) → argument ≡ Some v →
        result ≡ Some (Request.Process key.now processor value v) }
{
    match argument {
        Some(argument) => Some(Request::Process {
            key: *key,
            processor,
            value,
            argument,
        }),
        None => None,
    }
}

/// What a step asks first: the loader or the writer, as its line says, or the processor. `copy` is what that hook is
/// given, and `live` the key's live value for a processor; where it needs a loaded one, the loader is asked before.
pub(crate) fn first_request(
    config: &CacheConfig,
    call: &KeyCall,
    asks: Ask,
    copy: Option<Value>,
    live: Option<Value>,
) -> Option<Request>
    requires copy { copy ≡ handed config.now.writer call.now.op }
    ensures { result ≡ first_request config.now call.now.key call.now.op asks live }
{
    match &call.op {
        Op::Invoke { processor, .. } => {
            if awaits_load(config, *processor, live.is_some()) {
                return Some(Request::Load(call.key));
            }
            process(&call.key, *processor, live, copy)
        }
        _ => match asks {
            Ask::Load => {
                if config.loader {
                    Some(Request::Load(call.key))
                } else {
                    None
                }
            }
            asks => ask_writer(config, &call.key, asks, copy),
        },
    }
}
