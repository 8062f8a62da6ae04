//! What becomes of a script's lines that create and destroy caches.
ghost use Rattle.std.specs.Prelude.{◌≡◌, IfOk, OnOk};
ghost use Rattle.std.specs.Bool.{Decides};
ghost use Rattle.jc_model.specs.Legal.{numbered_lives};
ghost use Rattle.jc_model.specs.Runs.{opened_from};
ghost use Rattle.jc_script.specs.declared.line.Line.TheVariants as lines;
ghost use Rattle.jc_script.specs.Live.{lives_in, AreAfter};
ghost use Rattle.jc_script.specs.Managing.{lives_of_script, managed_of, AddsLives, AddsManaged};
ghost use Rattle.jc_script.specs.Named.{Names, AllName, IsLive};

use crate::line::Line;
use crate::live::Live;
use crate::managed::{ManageOp, Managed};
use jc_config::Settings;
use jc_model::OutOfMemory;
use jc_model::config::CacheConfig;
use jc_model::event::{CacheId, Life};
use jc_model::share::Share;
use std::alloc::Global;

/// What a script's lines come to that create and destroy caches, memory sufficing: the lives of all caches in order of
/// id, and what becomes of each such line.
#[derive(Drop)]
pub struct Followed {
    pub lives: Vec<Life>,
    pub managed: Vec<Managed>,
}

/// The lives that these caches begin, with ids from 0.
fn first_lives(alloc: Global, settings: &Settings) -> Result<Vec<Life>, OutOfMemory>
    ensures { IfOk result (λ lives. lives.items ≡ numbered_lives 0 settings.now) }
{
    let mut lives = Vec::new(alloc);
    let mut id = 0;
    for cache in settings.caches() {
        let config = cache.share()?;
        lives.push(Life {
            id: CacheId::new(id),
            config,
        })?;
        id += 1;
    }
    Ok(lives)
}

/// Notes the life that a line which creates begins, and what becomes of the line.
fn follow_create(
    live: Live,
    session: u32,
    config: &CacheConfig,
    lives: &mut Vec<Life>,
    managed: &mut Vec<Managed>,
) -> Result<Live, OutOfMemory>
    ensures live { IfOk result (AreAfter live (lines.Create session config.now)) }
    ensures lives { OnOk result (AddsLives live (lines.Create session config.now)
        lives.old.items lives.new.items) }
    ensures managed { OnOk result (AddsManaged live (lines.Create session config.now)
        managed.old.items managed.new.items) }
{
    let refusal = live.refusal(config);
    if refusal.is_none() {
        let config = config.share()?;
        lives.push(Life {
            id: CacheId::new(live.next()),
            config,
        })?;
    }
    managed.push(Managed {
        session,
        op: ManageOp::Create,
        name: config.name,
        refusal,
    })?;
    live.create(config)
}

/// Notes what becomes of a line that destroys.
fn follow_destroy(
    live: Live,
    session: u32,
    id: CacheId,
    managed: &mut Vec<Managed>,
) -> Result<Live, OutOfMemory>
    requires { IsLive (lives_in live) id }
    ensures live { IfOk result (AreAfter live (lines.Destroy session id)) }
    ensures managed { OnOk result (AddsManaged live (lines.Destroy session id)
        managed.old.items managed.new.items) }
{
    let Some(name) = live.name(id) else {
        unreachable!()
    };
    managed.push(Managed {
        session,
        op: ManageOp::Destroy,
        name,
        refusal: None,
    })?;
    Ok(live.destroy(id))
}

fn follow_line(
    live: Live,
    line: &Line,
    lives: &mut Vec<Life>,
    managed: &mut Vec<Managed>,
) -> Result<Live, OutOfMemory>
    requires { Names (lives_in live) line.now }
    ensures live { IfOk result (AreAfter live line.now) }
    ensures lives { OnOk result (AddsLives live line.now lives.old.items lives.new.items) }
    ensures managed { OnOk result (AddsManaged live line.now managed.old.items managed.new.items) }
{
    match line {
        Line::Call(_) => Ok(live),
        Line::Create { session, config } => follow_create(live, *session, config, lives, managed),
        Line::Destroy { session, id } => follow_destroy(live, *session, *id, managed),
    }
}

/// Follows a script's lines from its caches on.
pub fn follow(alloc: Global, settings: &Settings, lines: &[Line]) -> Result<Followed, OutOfMemory>
    requires { AllName (opened_from 0 settings.now) lines.now }
    ensures lives { IfOk result (λ f. f.lives.items ≡ lives_of_script settings.now lines.now) }
    ensures managed { IfOk result (λ f. f.managed.items ≡ managed_of settings.now lines.now) }
{
    let mut live = Live::new(alloc, settings)?;
    let mut lives = first_lives(alloc, settings)?;
    let mut managed = Vec::new(alloc);
    for line in lines {
        live = follow_line(live, line, &mut lives, &mut managed)?;
    }
    Ok(Followed { lives, managed })
}

/// Whether these are the same lives.
pub fn same_lives(some: &[Life], others: &[Life]) -> bool
    ensures { Decides result (some.now ≡ others.now) }
{
    some == others
}
