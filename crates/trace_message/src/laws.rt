//! What holds of messages and kinds alone.

ghost use Rattle.std.specs.Prelude.{◌≡◌, ◌↔◌, Option, Some};
ghost use Rattle.trace_message.specs.declared.event.Flags.{Flags as TheFlags};
ghost use Rattle.trace_message.specs.declared.event.Stamp.{Stamp as TheStamp};
ghost use Rattle.trace_message.specs.declared.seen.Seen.{Seen as TheSeen};
ghost use Rattle.trace_message.specs.{Events.EventData, Glances.glance, Kinds.IsMessage, Kinds.seen_of, Messages.message_of};
ghost use Rattle.trace_terms.specs.declared.term.Pid.{Pid as ThePid};
ghost use Rattle.trace_terms.specs.Data.{Data};

/// No term is a message of two kinds.
pub fn one_kind()
    ensures { (term : Data) (a b : TheSeen) → IsMessage a term → IsMessage b term → a ≡ b }
{}

/// Each term is a message of some kind, or of none.
pub fn some_kind_or_none()
    ensures { (term : Data) → (found : Option TheSeen)
        × ((seen : TheSeen) → (found ≡ Some seen) ↔ IsMessage seen term) }
{}

/// The message of an event is of the event's kind.
pub fn messages_have_their_kind()
    ensures { (event : EventData) (pid : ThePid) (flags : TheFlags) (stamp : TheStamp) (term : Data)
        → message_of event pid flags stamp ≡ Some term → IsMessage (seen_of event) term }
{}

/// A glance at a term tells the kind of message that it is.
pub fn a_glance_tells_the_kind()
    ensures { (term : Data) (seen : TheSeen) → ((glance term).kind ≡ Some seen)
        ↔ IsMessage seen term }
{}
