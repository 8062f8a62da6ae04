//! The tenures in which a manager with its whole transcript is closed, and its end by its sessions' lists.
ghost use Rattle.std.specs.Prelude.{◌≡◌, ◌≢◌, false, true, Err, IfOk, IfErr, OnOk, OnErr, map};
ghost use Rattle.jc_model.specs.Legal.{IsLegal};
ghost use Rattle.jc_locked.specs.Accounts.{Accounts, IsAuditFault, IsCloseFault, IsCloseRefusal};
ghost use Rattle.jc_locked.specs.Sessions.{BeginsWith};

use super::GuardedState;
use crate::auditing::{Logged, audit};
use crate::fault::CloseFault;
use crate::name::Name;
use jc_engine::journal::all_calls::AllCalls;
use jc_model::Transcript;
use jc_model::share::Share;

impl<N: Name> GuardedState<N, AllCalls> {
    /// Whether the manager is open yet, and the logs account for the transcript.
    fn compare<S: Logged>(&self, logs: &[S]) -> Result<(), CloseFault>
        ensures legal { IsLegal self.now.recorded.transcript }
        ensures begins { BeginsWith N.configs self.now.recorded.transcript }
        ensures accounts { OnOk result (Accounts
            self.now.given (map S.log logs.now) self.now.recorded.transcript.entries) }
        ensures open { OnOk result (self.now.closed ≡ false) }
        ensures refused { IfErr result (IsCloseRefusal N.configs (map S.log logs.now)) }
        ensures fault { self.now.closed ≡ false → IfErr result (IsAuditFault
            self.now.given (map S.log logs.now) self.now.recorded.transcript.entries) }
        ensures again { self.now.closed ≡ true → result ≡ Err CloseFault.Missing }
        ensures memory { IfErr result (λ f. f ≢ CloseFault.OutOfMemory) }
    {
        let transcript = self.recorded.transcript();
        if self.closed {
            return Err(CloseFault::Missing);
        }
        audit(transcript, logs, self.given)
    }

    /// Closes the manager, where the logs account for the transcript, and hands a copy of the transcript out.
    pub fn finish<S: Logged>(&mut self, logs: &[S]) -> Result<Transcript, CloseFault>
        ensures legal { IfOk result (λ t. IsLegal t) }
        ensures begins { IfOk result (λ t. BeginsWith N.configs t) }
        ensures accounts { IfOk result (λ t.
            Accounts self.old.given (map S.log logs.now) t.entries) }
        ensures whole { IfOk result (λ t. t ≡ self.old.recorded.transcript) }
        ensures refused { IfErr result (λ f. IsCloseRefusal N.configs (map S.log logs.now) f) }
        ensures fault { self.old.closed ≡ false → IfErr result (IsCloseFault
            self.old.given (map S.log logs.now) self.old.recorded.transcript.entries) }
        ensures closed { OnOk result ((self.old.closed ≡ false) × (self.new.closed ≡ true)) }
        ensures kept { (self.new.recorded ≡ self.old.recorded) × (self.new.given ≡ self.old.given) }
        ensures again { self.old.closed ≡ true → result ≡ Err CloseFault.Missing }
        ensures same { OnErr result (self.new ≡ self.old) }
    {
        self.compare(logs)?;
        let Ok(copy) = self.recorded.transcript().share() else {
            return Err(CloseFault::OutOfMemory);
        };
        self.closed = true;
        Ok(copy)
    }

    /// Ends the manager, where the logs account for the transcript, and hands the transcript itself out.
    pub fn into_transcript<S: Logged>(
        self,
        logs: &[S],
    ) -> Result<Transcript, (CloseFault, GuardedState<N, AllCalls>)>
        ensures legal { IfOk result (λ t. IsLegal t) }
        ensures begins { IfOk result (λ t. BeginsWith N.configs t) }
        ensures accounts { IfOk result (λ t.
            Accounts self.given (map S.log logs.now) t.entries) }
        ensures whole { IfOk result (λ t. t ≡ self.recorded.transcript) }
        ensures open { OnOk result (self.closed ≡ false) }
        ensures refused { IfErr result (λ e. IsCloseRefusal N.configs (map S.log logs.now) e.0) }
        ensures fault { self.closed ≡ false → IfErr result (λ e. IsAuditFault
            self.given (map S.log logs.now) self.recorded.transcript.entries e.0) }
        ensures again { self.closed ≡ true → IfErr result (λ e. e.0 ≡ CloseFault.Missing) }
        ensures memory { IfErr result (λ e. e.0 ≢ CloseFault.OutOfMemory) }
        ensures back { IfErr result (λ e. e.1 ≡ self) }
    {
        match self.compare(logs) {
            Ok(()) => Ok(self.recorded.into_transcript()),
            Err(fault) => Err((fault, self)),
        }
    }
}
