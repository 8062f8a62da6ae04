//! What a call comes to, as one number. No two have the same, and none is ever given another.
ghost use Rattle.std.specs.Prelude.{◌≡◌};
ghost use Rattle.jc_c.specs.Status.{status_number, cause_status, refusal_status, reply_status};
ghost use Rattle.jc_c.specs.Status.{request_status, fault_status, outcome_status};

use jc_model::call::{By, Reply, Request};
use jc_model::event::{Cause, CreateRefusal, Outcome, Step};

/// Why bytes say no call, no answer and no configuration; the manager is then not asked.
#[derive(Clone, Copy, Debug, PartialEq, Eq)]
pub enum Fault {
    /// A key or a name is not from 1 to 63 bytes of UTF-8.
    BadKey,
    /// A value has more than 65,535 bytes.
    BadValue,
    /// The lengths of a list do not come to its bytes.
    BadLengths,
    /// More than 64 keys.
    TooManyKeys,
    /// A key stands twice in a list.
    DuplicateKey,
    /// A number names no policy or no action.
    BadChoice,
    /// Memory is wanting for what the bytes say.
    OutOfMemory,
}

/// What a call comes to.
#[derive(Clone, Copy, Debug, PartialEq, Eq)]
pub enum Status {
    /// It is done, and there is nothing to show.
    Done = 0,
    False = 1,
    True = 2,
    /// One value.
    Found = 3,
    /// No value.
    Nothing = 4,
    /// Keys with their values.
    Listed = 5,
    /// By key, what a processor answered.
    Results = 6,
    /// The counters.
    Counted = 7,
    LoaderFailed = 8,
    WriterFailed = 9,
    ProcessorFailed = 10,
    /// The call is open, and waits for an answer.
    NeedLoad = 16,
    NeedWrite = 17,
    NeedDelete = 18,
    NeedProcess = 19,
    NeedTell = 20,
    NoSuchCache = 32,
    /// A call on the cache is open.
    Busy = 33,
    NoSuchProcessor = 34,
    /// No call on the cache is open.
    NoTurn = 35,
    /// The open call awaits another kind of answer.
    WrongAnswer = 36,
    OutOfMemory = 37,
    TooManyCaches = 48,
    BadCapacity = 49,
    TooManyListeners = 50,
    TooManyProcessors = 51,
    DuplicateName = 52,
    TotalCapacity = 53,
    IdsSpent = 54,
    /// The handle holds no manager.
    Closed = 64,
    /// The handle holds a manager already.
    InUse = 65,
    BadKey = 66,
    BadValue = 67,
    BadLengths = 68,
    TooManyKeys = 69,
    DuplicateKey = 70,
    BadChoice = 71,
    /// There is no such item, or it has no such part.
    NoItem = 72,
    /// The buffer took the first bytes alone.
    ShortBuffer = 73,
    /// Bytes that no cache is saved as.
    BadSave = 74,
    /// Saved bytes of another version of their format.
    OtherVersion = 75,
}

impl Status {
    /// Its number.
    pub fn number(self) -> u32
        ensures { result ≡ status_number self }
    {
        self as u32
    }

    /// Why an event is refused.
    pub fn of_cause(cause: Cause) -> Status
        ensures { result ≡ cause_status cause }
    {
        match cause {
            Cause::NoSuchCache => Status::NoSuchCache,
            Cause::Busy => Status::Busy,
            Cause::NoSuchProcessor => Status::NoSuchProcessor,
            Cause::NoTurn => Status::NoTurn,
            Cause::WrongAnswer => Status::WrongAnswer,
            Cause::OutOfMemory => Status::OutOfMemory,
        }
    }

    /// Why no cache is created.
    pub fn of_refusal(refusal: CreateRefusal) -> Status
        ensures { result ≡ refusal_status refusal }
    {
        match refusal {
            CreateRefusal::TooManyCaches => Status::TooManyCaches,
            CreateRefusal::BadCapacity => Status::BadCapacity,
            CreateRefusal::TooManyListeners => Status::TooManyListeners,
            CreateRefusal::TooManyProcessors => Status::TooManyProcessors,
            CreateRefusal::DuplicateName => Status::DuplicateName,
            CreateRefusal::TotalCapacity => Status::TotalCapacity,
            CreateRefusal::IdsSpent => Status::IdsSpent,
            CreateRefusal::OutOfMemory => Status::OutOfMemory,
        }
    }

    /// Why bytes say nothing.
    pub fn of_fault(fault: Fault) -> Status
        ensures { result ≡ fault_status fault }
    {
        match fault {
            Fault::BadKey => Status::BadKey,
            Fault::BadValue => Status::BadValue,
            Fault::BadLengths => Status::BadLengths,
            Fault::TooManyKeys => Status::TooManyKeys,
            Fault::DuplicateKey => Status::DuplicateKey,
            Fault::BadChoice => Status::BadChoice,
            Fault::OutOfMemory => Status::OutOfMemory,
        }
    }

    /// What a reply is.
    fn of_reply(reply: &Reply) -> Status
        ensures { result ≡ reply_status reply.now }
    {
        match reply {
            Reply::Done => Status::Done,
            Reply::Truth(false) => Status::False,
            Reply::Truth(true) => Status::True,
            Reply::Found(Some(_)) => Status::Found,
            Reply::Found(None) => Status::Nothing,
            Reply::Listed(_) => Status::Listed,
            Reply::Results(_) => Status::Results,
            Reply::Counted(_) => Status::Counted,
            Reply::Fault { by, .. } => match by {
                By::Loader => Status::LoaderFailed,
                By::Writer => Status::WriterFailed,
                By::Processor => Status::ProcessorFailed,
            },
        }
    }

    /// What a request asks for.
    fn of_request(request: &Request) -> Status
        ensures { result ≡ request_status request.now }
    {
        match request {
            Request::Load(_) => Status::NeedLoad,
            Request::Write(_, _) => Status::NeedWrite,
            Request::Delete(_) => Status::NeedDelete,
            Request::Process { .. } => Status::NeedProcess,
            Request::Tell(_) => Status::NeedTell,
        }
    }

    /// What an event has come to.
    pub fn of_outcome(outcome: &Outcome) -> Status
        ensures { result ≡ outcome_status outcome.now }
    {
        match outcome {
            Outcome::Step(Step::Done(reply)) => Status::of_reply(reply),
            Outcome::Step(Step::Need(request)) => Status::of_request(request),
            Outcome::Refused(cause) => Status::of_cause(*cause),
            Outcome::CreateRefused(refusal) => Status::of_refusal(*refusal),
            Outcome::GivenUp(_) | Outcome::Created(_) | Outcome::Destroyed => Status::Done,
        }
    }
}
