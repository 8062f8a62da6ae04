//! The caches that lines create and destroy.
ghost use Rattle.std.specs.Prelude.{◌≡◌, ◌<◌, ℕ, Some, IfOk, IfErr, OnOk, None, length, slice_get};
ghost use Rattle.jc_model.specs.declared.event.Life.{Life as Lived};
ghost use Rattle.jc_script.specs.declared.line.Line.TheVariants as lines;
ghost use Rattle.jc_script.specs.Named.{IsLive};
ghost use Rattle.jc_runner.specs.Halfway.{lives_now, as_read, IsAtRest, refusal_now, CreatesCache, DestroysCache, NotesLine};
ghost use Rattle.jc_cli.specs.declared.fault.RunFault.TheVariants as faults;

use jc_cli::RunFault;
use jc_engine::recorded::Recorded;
use jc_model::config::CacheConfig;
use jc_model::event::{CacheId, CreateRefusal, Life};
use jc_model::key::Key;
use jc_ring::ring::Ring;
use jc_rows::rows::Rows;
use jc_script::{ManageOp, Managed};

/// Creates a cache. The result is why it was refused, if it was.
fn create<R: Rows, G: Ring>(
    recorded: &mut Recorded<R, G>,
    config: CacheConfig,
) -> Result<Option<CreateRefusal>, RunFault>
    ensures moves { OnOk result ((session : ℕ)
        → CreatesCache recorded.old recorded.new session config) }
    ensures refusal { IfOk result (λ refusal. refusal ≡ refusal_now recorded.old config) }
    ensures faults { IfErr result (λ e.
        (e ≡ faults.Memory) × (refusal_now recorded.old config ≡ None)) }
{
    match recorded.create(config) {
        Ok(_) => Ok(None),
        Err((CreateRefusal::OutOfMemory, config)) => {
            drop(config);
            Err(RunFault::Memory)
        }
        Err((refusal, config)) => {
            drop(config);
            Ok(Some(refusal))
        }
    }
}

/// Runs a line that creates a cache, and notes what became of it.
pub(crate) fn run_create<R: Rows, G: Ring>(
    recorded: &mut Recorded<R, G>,
    managed: &mut Vec<Managed>,
    session: u32,
    config: CacheConfig,
) -> Result<(), RunFault>
    ensures moves { OnOk result (CreatesCache recorded.old recorded.new session config) }
    ensures managed { OnOk result (NotesLine recorded.old (lines.Create session config)
        managed.old.items managed.new.items) }
    ensures faults { IfErr result (λ e. e ≡ faults.Memory) }
{
    let name = config.name;
    let refusal = create(recorded, config)?;
    managed.push(Managed {
        session,
        op: ManageOp::Create,
        name,
        refusal,
    })?;
    Ok(())
}

/// The name of a cache that has lived.
fn name_of(lives: &[Life], id: CacheId) -> Key
    requires { id < length lives.now }
    ensures { (life : Lived) → slice_get lives.now id ≡ Some life → result ≡ life.config.name }
{
    lives[id.number() as usize].config.name
}

/// Runs a line that destroys a cache, and notes it.
pub(crate) fn run_destroy<R: Rows, G: Ring>(
    recorded: &mut Recorded<R, G>,
    managed: &mut Vec<Managed>,
    session: u32,
    id: CacheId,
) -> Result<(), RunFault>
    requires rest { IsAtRest recorded.old }
    requires live { IsLive (as_read (lives_now recorded.old)) id }
    ensures moves { OnOk result (DestroysCache recorded.old recorded.new session id) }
    ensures managed { OnOk result (NotesLine recorded.old (lines.Destroy session id)
        managed.old.items managed.new.items) }
    ensures faults { IfErr result (λ e. e ≡ faults.Memory) }
{
    let name = name_of(recorded.transcript().lives(), id);
    if recorded.destroy(id).is_err() {
        unreachable!()
    }
    managed.push(Managed {
        session,
        op: ManageOp::Destroy,
        name,
        refusal: None,
    })?;
    Ok(())
}
