//! The tenure of a get that has its reply at once, and of which nothing is kept.
ghost use Rattle.std.specs.Prelude.{◌≡◌, ◌+◌, Some, None, IfSome};
ghost use mathlib.Core.List.{IsPrefix};
ghost use Rattle.jc_model.specs.declared.call.Reply.TheVariants.{Found};
ghost use Rattle.jc_model.specs.declared.event.Event.TheVariants.{Begin};
ghost use Rattle.jc_model.specs.declared.event.Step.TheVariants.{Done};
ghost use Rattle.jc_engine.specs.Recording.{blank_of};
ghost use Rattle.jc_engine.specs.Results.{of_found};
ghost use Rattle.jc_locked.specs.Calls.{CallGoesOnTo};
ghost use Rattle.jc_locked.specs.Tenures.{IsTenure};

use super::GuardedState;
use crate::journal_policy::JournalPolicy;
use crate::name::Name;
use crate::seat::Seat;
use jc_engine::journal::change::Origin;
use jc_model::call::Call;
use jc_model::value::Value;

impl<N: Name, J: JournalPolicy> GuardedState<N, J> {
    /// Makes a get that has its reply at once, and of which nothing is kept: the value that was found. The session's pass sees what
    /// the call has changed. Of any other call nothing, and nothing has changed.
    pub fn get_at_once(
        &mut self,
        seat: &mut Seat<N>,
        origin: Origin,
        call: &Call,
    ) -> Option<Option<Value>>
        requires { origin.session ≡ seat.old.number }
        ensures some { IfSome result (λ value. CallGoesOnTo N.configs
            (blank_of origin call.now) (Done (Found value)) (Some (Found value)) seat.new.pass) }
        ensures tenure { IfSome result (λ value. IsTenure self.old.recorded self.new.recorded
            origin.session (Begin origin.id origin.at call.now) (of_found value)) }
        ensures front { IsPrefix seat.old.pass.images seat.new.pass.images }
        ensures same { result ≡ None →
            (self.new.recorded ≡ self.old.recorded) × (seat.new ≡ seat.old) }
        ensures number { seat.new.number ≡ seat.old.number }
        ensures accepted { IfSome result (λ value. seat.new.accepted ≡ seat.old.accepted + 1) }
        ensures kept { (self.new.given ≡ self.old.given) × (self.new.closed ≡ self.old.closed) }
    {
        let found = self.recorded.get_at_once(origin, call)?;
        seat.accept();
        self.show(&mut seat.pass);
        Some(found)
    }
}
