//! Laws of the definitions that the contracts cite.
ghost use Rattle.std.specs.Prelude.{◌≡◌, ◌==◌, ◌&&◌, not, ℕ, List, [], None, if◌then◌else◌};
ghost use Rattle.std.specs.List.{list_any};
ghost use Rattle.client_messages.specs.Limited.{AreLimited};
ghost use Rattle.client_messages.specs.Listeners.{newcomer, listener_of, with_channel, subscribed, without_channel, unsubscribed};
ghost use Rattle.client_messages.specs.Listeners.{delivered, sent, with_nothing_unread, with_all_read, left};
ghost use Rattle.client_messages.specs.Listeners.{IsRising, has_read_all, notified};
ghost use Rattle.client_messages.specs.Refusal.{subscribe_refusal};
ghost use Rattle.client_messages.specs.declared.listener.Listener.{Listener};
ghost use Rattle.client_messages.specs.declared.message.Message.{Message};

/// A call of one client changes nothing for the others; and a message reaches each client once, or not at all, by what that client has.
pub fn each_client_for_itself()
    ensures subscribed { (ls : List Listener) (c d : ℕ) (channel : List ℕ) → listener_of (subscribed ls c channel) d
        ≡ (if d == c then with_channel channel (listener_of ls c) else listener_of ls d) }
    ensures unsubscribed { (ls : List Listener) (c d : ℕ) (channel : List ℕ) → listener_of (unsubscribed ls c channel) d
        ≡ (if d == c then without_channel channel (listener_of ls d) else listener_of ls d) }
    ensures sent { (ls : List Listener) (m : Message) (d : ℕ) → listener_of (sent ls m) d ≡ delivered m (listener_of ls d) }
    ensures read { (ls : List Listener) (c d : ℕ) → listener_of (with_all_read ls c) d
        ≡ (if d == c then with_nothing_unread (listener_of ls d) else listener_of ls d) }
    ensures left { (ls : List Listener) (c d : ℕ) → listener_of (left ls c) d
        ≡ (if d == c then newcomer d else listener_of ls d) }
{}

/// Who is notified of a message had read all before it, and hasn't now; and nobody else is notified.
pub fn the_first_unread_is_notified()
    ensures { (ls : List Listener) (m : Message) (c : ℕ) → IsRising ls → list_any (λ d. d == c) (notified ls m)
        ≡ (has_read_all (listener_of ls c) && not (has_read_all (listener_of (sent ls m) c))) }
{}

/// What is called and not refused leaves the clients by rising number, and each within the limits.
pub fn limits_are_kept()
    ensures none { AreLimited [] }
    ensures subscribed { (ls : List Listener) (c : ℕ) (channel : List ℕ) → subscribe_refusal ls c channel ≡ None → AreLimited ls
        → AreLimited (subscribed ls c channel) }
    ensures unsubscribed { (ls : List Listener) (c : ℕ) (channel : List ℕ) → AreLimited ls
        → AreLimited (unsubscribed ls c channel) }
    ensures sent { (ls : List Listener) (m : Message) → AreLimited ls → AreLimited (sent ls m) }
    ensures read { (ls : List Listener) (c : ℕ) → AreLimited ls → AreLimited (with_all_read ls c) }
    ensures left { (ls : List Listener) (c : ℕ) → AreLimited ls → AreLimited (left ls c) }
{}
