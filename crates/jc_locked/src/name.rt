//! The name that ties the sessions of a manager to what lies under its lock.
use jc_index::naming::Naming;
use std::marker::{Brand, PhantomData};

/// With which configurations a manager was opened, what its loaders and processors state, by cache, and which index its
/// sessions look keys up in. It has no functions: each caller of `Shared::named` picks one, by calling a function of
/// its own that is generic in it.
pub trait Name {
    ghost use Rattle.std.specs.Prelude.{List};
    ghost use Rattle.atomic_table.specs.Seated.{TableId};
    ghost use Rattle.jc_model.specs.declared.config.CacheConfig.{CacheConfig};
    ghost use Rattle.jc_locked.specs.Stated.{Stated};

    ghost configs: { List CacheConfig };

    ghost stated: { List Stated };

    ghost index: { TableId };
}

impl Name for Brand {
    ghost use Rattle.std.specs.Prelude.{[]};

    ghost configs = { [] };

    ghost stated = { [] };

    ghost index = { record {
      words = 0;
      slots = 0;
      views_name = 0;
      atom = 0;
      block = 0;
      offset = 0;
      slot_names = [];
    } };
}

/// The index of a manager's name.
pub struct IndexOf<N> {
    of: PhantomData<N>,
}

impl<N: Name> Naming for IndexOf<N> {
    ghost name = { N.index };
}
