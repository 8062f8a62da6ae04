//! Answers to the open call's request, and giving it up.
ghost use Rattle.std.specs.Prelude.{Result, Ok, Err, None};
ghost use Rattle.jc_model.specs.declared.call.Answer.{Answer as SomeAnswer};
ghost use Rattle.jc_model.specs.declared.event.Event.TheVariants.{GiveUp};
ghost use Rattle.jc_c.specs.declared.status.Fault.{Fault as SomeFault};
ghost use Rattle.jc_c.specs.Calls.{loaded_answer, processed_answer};
ghost use Rattle.jc_c.specs.Reading.{IsRead};
ghost use Rattle.jc_c.specs.Held.{SeatAnswers, SeatResumes, SeatResumesOr};

use crate::calls;
use crate::exports::handle::Handle;
use crate::status::{Fault, Status};
use jc_model::call::{Answer, ProcessorFault};
use jc_model::event::CacheId;
use std::alloc::Global;

/// Takes the manager out, answers as the bytes say, and puts it back.
fn answer_call(alloc: Global, h: &mut Handle, id: u32, said: Result<Answer, Fault>) -> u32
    ensures called { SeatResumes id said h.old result h.new }
    ensures or_memory { (what : Result SomeAnswer SomeFault) → IsRead what said
        → SeatResumesOr id what h.old result h.new }
{
    let Some(mut seat) = h.take(alloc) else {
        drop(said);
        return Status::Closed.number();
    };
    let status = seat.answer(id, said);
    h.put_in(seat);
    status.number()
}

#[unsafe(no_mangle)]
pub extern "C" fn jc_loaded(alloc: Global, h: &mut Handle, id: u32, value: &[u8]) -> u32
    ensures { SeatResumesOr id (loaded_answer value.now) h.old result h.new }
{
    answer_call(alloc, h, id, calls::loaded(alloc, value))
}

#[unsafe(no_mangle)]
pub extern "C" fn jc_loaded_nothing(alloc: Global, h: &mut Handle, id: u32) -> u32
    ensures { SeatResumes id (Ok (Answer.Loaded None)) h.old result h.new }
{
    answer_call(alloc, h, id, Ok(Answer::Loaded(None)))
}

#[unsafe(no_mangle)]
pub extern "C" fn jc_load_failed(alloc: Global, h: &mut Handle, id: u32) -> u32
    ensures { SeatResumes id (Ok Answer.LoadFailed) h.old result h.new }
{
    answer_call(alloc, h, id, Ok(Answer::LoadFailed))
}

#[unsafe(no_mangle)]
pub extern "C" fn jc_written(alloc: Global, h: &mut Handle, id: u32) -> u32
    ensures { SeatResumes id (Ok Answer.Written) h.old result h.new }
{
    answer_call(alloc, h, id, Ok(Answer::Written))
}

#[unsafe(no_mangle)]
pub extern "C" fn jc_write_failed(alloc: Global, h: &mut Handle, id: u32) -> u32
    ensures { SeatResumes id (Ok Answer.WriteFailed) h.old result h.new }
{
    answer_call(alloc, h, id, Ok(Answer::WriteFailed))
}

#[unsafe(no_mangle)]
pub extern "C" fn jc_processed(
    alloc: Global,
    h: &mut Handle,
    id: u32,
    action: u32,
    value: &[u8],
    answers: u32,
    answer: &[u8],
) -> u32
    ensures { SeatResumesOr id (processed_answer action value.now answers answer.now)
        h.old result h.new }
{
    answer_call(
        alloc,
        h,
        id,
        calls::processed(alloc, action, value, answers, answer),
    )
}

#[unsafe(no_mangle)]
pub extern "C" fn jc_process_failed(alloc: Global, h: &mut Handle, id: u32) -> u32
    ensures { SeatResumes id (Ok (Answer.Processed (Err (record {})))) h.old result h.new }
{
    answer_call(alloc, h, id, Ok(Answer::Processed(Err(ProcessorFault {}))))
}

#[unsafe(no_mangle)]
pub extern "C" fn jc_told(alloc: Global, h: &mut Handle, id: u32) -> u32
    ensures { SeatResumes id (Ok Answer.Told) h.old result h.new }
{
    answer_call(alloc, h, id, Ok(Answer::Told))
}

#[unsafe(no_mangle)]
pub extern "C" fn jc_give_up(alloc: Global, h: &mut Handle, id: u32) -> u32
    ensures { SeatAnswers (GiveUp id) h.old result h.new }
{
    let Some(mut seat) = h.take(alloc) else {
        return Status::Closed.number();
    };
    let status = seat.give_up(CacheId::new(id));
    h.put_in(seat);
    status.number()
}
