//! The laws of reports, each on the contract of a function without a body.
ghost use Rattle.std.specs.Prelude.{◌≡◌, ℕ, List};
ghost use Rattle.jc_hooks.specs.declared.cache_hooks.CacheHooks.{CacheHooks as Callbacks};
ghost use Rattle.jc_model.specs.declared.config.CacheConfig.{CacheConfig};
ghost use Rattle.jc_model.specs.declared.event.Entry.{Entry};
ghost use Rattle.jc_model.specs.Legal.{History, entries_of};
ghost use Rattle.jc_script.specs.declared.line.Line.{Line};
ghost use Rattle.jc_script.specs.Managing.{managed_of};
ghost use Rattle.jc_report.specs.Report as report;
ghost use Rattle.jc_locked.specs.Stated.{Stated};
ghost use Rattle.jc_runner.specs.Apart.{HaveOneCallerEach, TellsAlone, AnswerAlike};
ghost use Rattle.jc_runner.specs.Reports.{Reports};
ghost use Rattle.jc_runner.specs.Together.{IsMade};
ghost use Rattle.jc_runner.specs.declared.form.Form.TheVariants as form;

use jc_hooks::{FilteredListener, Loader, Processor, Writer};

/// Where no two sessions call the same life, a run on worker threads tells each life alone.
pub fn apart_is_alone()
    ensures { (stated : List Stated) (caches : List CacheConfig) (all : List Line)
        (transcript : History)
        → IsMade stated caches all transcript → HaveOneCallerEach all
        → TellsAlone caches all (λ id. entries_of id transcript.entries)
        (report.text transcript (managed_of caches all)) }
{}

/// A run in the lines' order tells each life alone, as text.
pub fn serial_is_alone<L: Loader, W: Writer, P: Processor, K: FilteredListener>()
    ensures { (caches : List CacheConfig) (all : List Line) (old new : List (Callbacks L W P K))
        (text : List ℕ)
        → (told : Reports L.load_of W.may P.verdict_of K.state_after
        form.Text caches all old new text)
        → TellsAlone caches all told.entries text }
{}

/// Two reports of each life alone are the same bytes, where the callbacks have answered the same.
pub fn alone_is_one_report()
    ensures { (caches : List CacheConfig) (all : List Line) (entries entries' : ℕ → List Entry)
        (text text' : List ℕ)
        → TellsAlone caches all entries text → TellsAlone caches all entries' text'
        → AnswerAlike caches all entries entries'
        → text ≡ text' }
{}
