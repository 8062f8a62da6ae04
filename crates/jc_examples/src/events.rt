//! Events on a manager, one a line: a line of a script, `NAME ANSWER` for the open call on the cache of that name, or
//! `NAME given up`. `NAME` alone tells which cache has it. `on 2 LINE` makes its call on the cache of that number; `again
//! LINE` tells, where it is refused for want of memory at first. `anew` begins with another manager.
ghost use Rattle.std.specs.Prelude.{◌≡◌};
ghost use Rattle.std.specs.FinMap as finite;

use crate::answers::answer_of;
use crate::texts::{asked_text, notices_text};
use jc_config::{Settings, read_config};
use jc_cuckoo::cuckoo::Cuckoo;
use jc_cuckoo::mirror::NoMirror;
use jc_engine::recorded::Recorded;
use jc_model::call::Reply;
use jc_model::event::{CacheId, Cause, Step};
use jc_model::key::Key;
use jc_model::share::Share;
use jc_report::{reply_text, report};
use jc_ring::link_ring::LinkRing;
use jc_ring::list_ring::ListRing;
use jc_ring::ring::Ring;
use jc_rows::list_rows::ListRows;
use jc_rows::rows::Rows;
use jc_script::{Line, LineCall, read_script};
use jc_trials::{ConstantPlacer, RefusingRows};
use std::alloc::{AllocError, Global};
use std::fs::Files;
use std::{fs, io};

/// The id of the cache with this name, else one that no cache has.
fn id_of<R: Rows, G: Ring>(manager: &Recorded<R, G>, name: &str) -> CacheId {
    let known = match Key::from_text(name) {
        Ok(name) => manager.cache(&name),
        Err(_) => None,
    };
    known.unwrap_or(CacheId::new(u32::MAX))
}

/// What a call does next: it replies, or it asks.
fn step_text(alloc: Global, step: &Step) -> Result<String, AllocError> {
    match step {
        Step::Done(reply) => format!(in alloc; "replies {}", reply_text(alloc, reply)?),
        Step::Need(request) => asked_text(alloc, request),
    }
}

fn refused_text(alloc: Global, cause: Cause) -> Result<String, AllocError> {
    format!(in alloc; "refused: {cause:?}")
}

/// What becomes of a call or an answer. Where it is refused it is handed back as it was.
fn taken_text<T: PartialEq + Drop>(
    alloc: Global,
    taken: Result<(Step, Option<Reply>), (Cause, T)>,
    given: &T,
) -> Result<String, AllocError> {
    match taken {
        Ok((step, _)) => step_text(alloc, &step),
        Err((cause, back)) => {
            let is_same = back == *given;
            drop(back);
            if is_same {
                refused_text(alloc, cause)
            } else {
                format!(in alloc; "another one is handed back")
            }
        }
    }
}

/// A line of a script as an event: on which cache, where that is not the one of its name, and whether it is told that
/// the line is refused for want of memory at first.
#[derive(Clone, Copy)]
struct Asked<'a> {
    line: &'a str,
    id: Option<u32>,
    tells: bool,
}

/// The line that these words ask for.
fn asked_by<'a>(words: &[&'a str]) -> Option<Asked<'a>> {
    let (line, id, tells) = match words {
        [line] => (line, None, false),
        [first, line] if *first == "again" => (line, None, true),
        [first, id, line] if *first == "on" => (line, id.parse::<u32>().ok(), false),
        _ => return None,
    };
    if line.starts_with("{") {
        Some(Asked { line, id, tells })
    } else {
        None
    }
}

/// What becomes of what is made again, where it was refused for want of memory and is the same that was handed back.
fn again_text(
    alloc: Global,
    text: String,
    is_same: bool,
    tells: bool,
) -> Result<String, AllocError> {
    if !is_same {
        format!(in alloc; "another one is handed back")
    } else if tells {
        format!(in alloc; "refused: OutOfMemory\n{text}")
    } else {
        Ok(text)
    }
}

/// What becomes of a call. Where it is refused for want of memory it is made again.
fn called<R: Rows, G: Ring>(
    alloc: Global,
    manager: &mut Recorded<R, G>,
    made: LineCall,
    asked: Asked<'_>,
) -> Result<String, AllocError> {
    let (session, at) = (made.session, made.at);
    let id = asked.id.map_or(made.id, CacheId::new);
    let given = made.call.share()?;
    match manager.begin(session, id, at, made.call) {
        Err((Cause::OutOfMemory, call)) => {
            let is_same = call == given;
            let again = manager.begin(session, id, at, call);
            let text = taken_text(alloc, again, &given)?;
            again_text(alloc, text, is_same, asked.tells)
        }
        begun => taken_text(alloc, begun, &given),
    }
}

/// What becomes of what a line asks for.
fn done<R: Rows, G: Ring>(
    alloc: Global,
    manager: &mut Recorded<R, G>,
    line: Line,
    asked: Asked<'_>,
) -> Result<String, AllocError> {
    match line {
        Line::Call(made) => called(alloc, manager, made, asked),
        Line::Create { config, .. } => match manager.create(config) {
            Ok(id) => format!(in alloc; "created {}", id.number()),
            Err((refusal, _)) => format!(in alloc; "refused: {refusal:?}"),
        },
        Line::Destroy { id, .. } => match manager.destroy(id) {
            Ok(()) => format!(in alloc; "destroyed"),
            Err(cause) => refused_text(alloc, cause),
        },
    }
}

/// What becomes of a line of a script.
fn begun<R: Rows, G: Ring>(
    alloc: Global,
    manager: &mut Recorded<R, G>,
    settings: &Settings,
    asked: Asked<'_>,
) -> Result<String, AllocError> {
    let mut lines = match read_script(alloc, asked.line.as_bytes(), settings) {
        Ok(lines) => lines,
        Err(fault) => return format!(in alloc; "{fault:?}"),
    };
    match lines.pop() {
        Some(line) => done(alloc, manager, line, asked),
        None => format!(in alloc; "no line"),
    }
}

/// What becomes of an answer. Where it is refused for want of memory it is given again.
fn answered<R: Rows, G: Ring>(
    alloc: Global,
    manager: &mut Recorded<R, G>,
    id: CacheId,
    words: &[&str],
) -> Result<String, AllocError> {
    let Some(given) = answer_of(alloc, words)? else {
        return format!(in alloc; "no answer");
    };
    match manager.resume(id, given.share()?) {
        Err((Cause::OutOfMemory, answer)) => {
            let is_same = answer == given;
            let again = manager.resume(id, answer);
            let text = taken_text(alloc, again, &given)?;
            again_text(alloc, text, is_same, false)
        }
        resumed => taken_text(alloc, resumed, &given),
    }
}

/// What becomes of an open call, or which cache has a name.
fn resumed<R: Rows, G: Ring>(
    alloc: Global,
    manager: &mut Recorded<R, G>,
    name: &str,
    words: &[&str],
) -> Result<String, AllocError> {
    let id = id_of(manager, name);
    match words {
        [] if id == CacheId::new(u32::MAX) => format!(in alloc; "no cache"),
        [] => format!(in alloc; "id {}", id.number()),
        [first, second] if *first == "given" && *second == "up" => match manager.give_up(id) {
            Ok(left) => format!(in alloc; "gave up{}", notices_text(alloc, left.items())?),
            Err(cause) => refused_text(alloc, cause),
        },
        words => answered(alloc, manager, id, words),
    }
}

/// What an event comes to.
fn outcome<R: Rows, G: Ring>(
    alloc: Global,
    manager: &mut Recorded<R, G>,
    settings: &Settings,
    event: &str,
) -> Result<String, AllocError> {
    let words: Vec<&str> = event.split_whitespace().collect(alloc)?;
    if let Some(asked) = asked_by(words.as_slice()) {
        return begun(alloc, manager, settings, asked);
    }
    match words.split_first() {
        Some((name, words)) => resumed(alloc, manager, name, words),
        None => format!(in alloc; "no event"),
    }
}

/// What each event comes to, a line each, and the report.
fn played<R: Rows, G: Ring>(
    alloc: Global,
    manager: &mut Recorded<R, G>,
    settings: &Settings,
    events: &str,
) -> Result<String, AllocError> {
    let mut text = String::new(alloc);
    for event in events.lines() {
        text.push_str(outcome(alloc, manager, settings, event)?.as_str())?;
        text.push_str("\n")?;
    }
    text.push_str(report(alloc, manager.transcript(), &[])?.as_str())?;
    Ok(text)
}

/// The settings of a configuration; `None` where it is faulty.
fn settings_of(alloc: Global, config: &[u8]) -> Option<Settings> {
    match read_config(alloc, config) {
        Ok(configuration) => Some(configuration.settings),
        Err(_) => None,
    }
}

/// What events come to over such a table, where room for new rows is refused at first, and how often it was refused;
/// nothing where the manager does not open.
fn poor_text<R: Rows, G: Ring>(
    alloc: Global,
    settings: &Settings,
    own: Settings,
    rows: R,
    events: &str,
) -> Result<Option<(String, u32)>, AllocError>
    requires { R.contents rows ≡ finite.empty }
{
    match Recorded::<_, G>::open(alloc, RefusingRows::new(rows), own.into_caches()) {
        Ok(mut manager) => {
            let text = played(alloc, &mut manager, settings, events)?;
            Ok(Some((text, manager.rows().refusals())))
        }
        Err(_) => Ok(None),
    }
}

/// What events come to over a list of rows and of their order, and over the linked ring and a cuckoo table where all
/// keys share two buckets; nothing where it is not the same, or no room was refused.
fn text_of(alloc: Global, config: &[u8], events: &str) -> Result<Option<String>, AllocError> {
    let all = || settings_of(alloc, config);
    let (Some(settings), Some(first), Some(second)) = (all(), all(), all()) else {
        return Ok(None);
    };
    let Ok(table) = Cuckoo::new(alloc, ConstantPlacer, NoMirror, 16) else {
        return Ok(None);
    };
    let rows = ListRows::new(alloc);
    let plain = poor_text::<_, ListRing>(alloc, &settings, first, rows, events)?;
    let linked = poor_text::<_, LinkRing>(alloc, &settings, second, table, events)?;
    let (Some((plain, refusals)), Some((linked, others))) = (plain, linked) else {
        return Ok(None);
    };
    let is_same = plain == linked && refusals == others && refusals > 0;
    Ok(if is_same { Some(plain) } else { None })
}

/// The events of each manager: a line `anew` begins another one.
fn sections(alloc: Global, events: &str) -> Result<Vec<String>, AllocError> {
    let mut sections = Vec::new(alloc);
    let mut section = String::new(alloc);
    for event in events.lines() {
        if event == "anew" {
            sections.push(section)?;
            section = String::new(alloc);
        } else {
            section.push_str(event)?;
            section.push_str("\n")?;
        }
    }
    sections.push(section)?;
    Ok(sections)
}

/// Prints what each event of a file comes to, and the report. Over another table and ring it is the same; each call and
/// answer that is refused for want of room is handed back, and made again.
pub fn play_events<R: Files + Print + AllocGlobal>(
    rt: &R,
    config: &str,
    events: &str,
) -> io::Result<()> {
    let alloc = rt.alloc();
    let config = fs::read(rt, config)?;
    let events = fs::read_to_string(rt, events)?;
    for section in sections(alloc, events.as_str())? {
        match text_of(alloc, config.as_slice(), section.as_str())? {
            Some(text) => print!(rt; "{text}")?,
            None => println!(rt; "another text over the cuckoo table, or no room was refused")?,
        }
    }
    Ok(())
}
