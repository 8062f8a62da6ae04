//! One name for a manager of four shards, and the names of these.
use jc_shared::Name;
use std::marker::{Brand, PhantomData};

/// What the name of a sharded manager tells: of each shard what `Name` tells.
pub trait ShardNames {
    ghost use Rattle.jc_shards.specs.Sharded.{FourTold};

    ghost shards: { FourTold };
}

impl ShardNames for Brand {
    ghost use Rattle.jc_shards.specs.Sharded.{untold};

    ghost shards = { untold };
}

/// The name of the first shard.
pub struct FirstOf<N> {
    of: PhantomData<N>,
}

impl<N: ShardNames> Name for FirstOf<N> {
    ghost configs = { N.shards.first.configs };

    ghost stated = { N.shards.first.stated };

    ghost index = { N.shards.first.index };
}

/// The name of the second.
pub struct SecondOf<N> {
    of: PhantomData<N>,
}

impl<N: ShardNames> Name for SecondOf<N> {
    ghost configs = { N.shards.second.configs };

    ghost stated = { N.shards.second.stated };

    ghost index = { N.shards.second.index };
}

/// The name of the third.
pub struct ThirdOf<N> {
    of: PhantomData<N>,
}

impl<N: ShardNames> Name for ThirdOf<N> {
    ghost configs = { N.shards.third.configs };

    ghost stated = { N.shards.third.stated };

    ghost index = { N.shards.third.index };
}

/// The name of the fourth.
pub struct FourthOf<N> {
    of: PhantomData<N>,
}

impl<N: ShardNames> Name for FourthOf<N> {
    ghost configs = { N.shards.fourth.configs };

    ghost stated = { N.shards.fourth.stated };

    ghost index = { N.shards.fourth.index };
}
