//! The table that the writer and the readers share. Its first words are the versions, each odd while the writer writes
//! in its stripe; the content follows.
use atomic_table::{Join, Play, Seat, Split, Table, TableRule};
use std::alloc::Global;
use std::collections::LinkedList;
use std::marker::PhantomData;
use std::snapshot::Snapshot;

/// How many stripes there are.
pub const STRIPE_COUNT: usize = 64;

/// The version that every lookup reads: it comes after those of the stripes.
pub const COMMON: usize = STRIPE_COUNT;

/// How many versions there are: one for each stripe, and the common one.
pub const VERSION_COUNT: usize = STRIPE_COUNT + 1;

/// Which version each place of the content is under, and what holds of the content whenever it is committed.
pub trait Law {
    ghost use Rattle.std.specs.Prelude.{ℕ, List};

    ghost group: { ℕ → ℕ };

    ghost admits: { Self → List ℕ → Type 0 };
}

/// What the writer knows: the versions, and the content as it is.
pub struct Desk {
    pub versions: LinkedList<u64>,
    pub words: LinkedList<u64>,
}

/// What a lookup has read, the last one first: the versions, each with its stripe, and again; the words, each with its
/// place. Once a version was read again, the lookup is settled.
pub struct Glance {
    pub begun: LinkedList<(u64, u64)>,
    pub checked: LinkedList<(u64, u64)>,
    pub notes: LinkedList<(u64, u64)>,
    pub settled: bool,
}

/// Who sits there: the one writer, with the words, or a reader, with what its lookup has read (MemC3, section 3).
pub enum Role {
    Writing(Desk),
    Looking(Glance),
}

/// What a seat at the table knows. No value of it is made.
pub struct View<L> {
    /// What holds of the committed content. A seat that was joined to another has none.
    pub law: Option<L>,
    pub role: Role,
    /// What was committed, the last one last: a beginning of it.
    pub front: LinkedList<LinkedList<u64>>,
    /// The front of a seat that was joined.
    pub told: LinkedList<LinkedList<u64>>,
    pub lookups: u64,
}

/// A seat of the writer or of a reader. It holds no slot, only what its owner knows.
pub type StripesSeat<L> = Seat<(), View<L>>;

/// What a table follows: the writer's seat at the table before it; the words that it begins with, the versions among
/// them; and the number at which all versions begin.
#[derive(Drop)]
pub struct Origin<L> {
    pub law: Snapshot<L>,
    pub before: Option<Snapshot<StripesSeat<L>>>,
    pub words: Snapshot<Vec<u64>>,
    pub start: u64,
}

/// The rule of the table: what a lookup has read under a version holds while that version is even and unchanged.
pub struct Versions;

impl<L: Law> TableRule<(), View<L>, Origin<L>> for Versions {
    ghost use Rattle.jc_index.specs.StripeLayout.{version_count};
    ghost use Rattle.jc_index.specs.Stripes.{BoardRule, opening_view};

    ghost holds = { λ o. BoardRule L.group version_count L.admits o.law.value };

    ghost first = { opening_view };
}

/// The shared words: the versions, then the content that `L` speaks of. It has no slots.
pub type Board<L> = Table<(), View<L>, Origin<L>, Versions, Global>;

/// The writer opens or shuts a version.
pub(crate) struct VersionChange;

impl<L> Play<(), View<L>> for VersionChange {
    ghost use Rattle.jc_index.specs.Stripes.{VersionStep};

    ghost then = { VersionStep };
}

/// The writer sets a word.
pub(crate) struct Set;

impl<L> Play<(), View<L>> for Set {
    ghost use Rattle.jc_index.specs.StripeLayout.{version_count};
    ghost use Rattle.jc_index.specs.Stripes.{SetStep};

    ghost then = { SetStep version_count };
}

/// The writer sets the last word of a commit, which appends to the front.
pub(crate) struct Seal;

impl<L> Play<(), View<L>> for Seal {
    ghost use Rattle.jc_index.specs.StripeLayout.{version_count};
    ghost use Rattle.jc_index.specs.Stripes.{SealStep};

    ghost then = { SealStep version_count };
}

/// The writer reads a version, and compares what it was told with its front.
pub(crate) struct Recall;

impl<L> Play<(), View<L>> for Recall {
    ghost use Rattle.jc_index.specs.Stripes.{RecallStep};

    ghost then = { RecallStep };
}

/// A reader reads a version for the first time.
pub(crate) struct Begin;

impl<L> Play<(), View<L>> for Begin {
    ghost use Rattle.jc_index.specs.Stripes.{BeginStep};

    ghost then = { BeginStep };
}

/// A reader reads a word.
pub(crate) struct Note;

impl<L> Play<(), View<L>> for Note {
    ghost use Rattle.jc_index.specs.StripeLayout.{version_count};
    ghost use Rattle.jc_index.specs.Stripes.{NoteStep};

    ghost then = { NoteStep version_count };
}

/// A reader reads a version again.
pub(crate) struct Check<L> {
    law: PhantomData<L>,
}

impl<L: Law> Play<(), View<L>> for Check<L> {
    ghost use Rattle.jc_index.specs.Stripes.{CheckStep};

    ghost then = { CheckStep L.group L.admits };
}

/// A reader's seat is cut off the writer's.
pub(crate) struct Share;

impl<L> Split<View<L>> for Share {
    ghost use Rattle.jc_index.specs.Stripes.{reader_view};

    ghost left = { λ v. v };

    ghost right = { reader_view };
}

/// The writer takes in a reader's seat.
pub(crate) struct Hear;

impl<L> Join<View<L>> for Hear {
    ghost use Rattle.jc_index.specs.Stripes.{joined_view, nobody_view};

    ghost both = { joined_view };

    ghost spent = { nobody_view };
}
