//! A value with the copies that its storing takes.
ghost use Rattle.std.specs.Prelude.{◌≡◌, IfOk, option_map};
ghost use Rattle.jc_ops.specs.Noted.{StoredIsTold, stored_value};

use jc_model::OutOfMemory;
use jc_model::config::CacheConfig;
use jc_model::owners::Owners;
use jc_model::value::Value;

/// A value to be stored, with its copies for the notice where the cache has listeners.
#[derive(Drop)]
pub struct Stored {
    pub value: Owners<Value>,
    pub told: Option<Owners<Value>>,
}

impl Stored {
    /// Owners of what is stored, if anything is.
    pub fn of_any(
        config: &CacheConfig,
        value: Option<&Value>,
    ) -> Result<Option<Stored>, OutOfMemory>
        ensures value { IfOk result (λ s. stored_value s ≡ option_map (λ v. v.now) value.entry) }
        ensures told { IfOk result (λ s. StoredIsTold config.now s) }
    {
        let Some(value) = value else {
            return Ok(None);
        };
        let stored = Owners::of(value)?;
        let told = match config.listeners {
            0 => None,
            _ => Some(Owners::of(value)?),
        };
        Ok(Some(Stored {
            value: stored,
            told,
        }))
    }
}
