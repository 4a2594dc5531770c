//! Laws of the core of a sync.

ghost use Rattle.std.specs.Prelude.{◌≡◌, ◌≤◌, ◌⊎◌, ℕ, not, Bool, List, None, filter};
ghost use Rattle.format_spec.specs.declared.limits.TheConstants.{MAX_PEERS};
ghost use Rattle.sync_spec.specs.Messages.{Item};
ghost use Rattle.sync_spec.specs.Core.{Core, core_at_start, with_items, all_pieces, chunks_without, next_ask};
ghost use Rattle.sync_spec.specs.CoreLaws.{IsCore, IsDueCall, AllInFlight, NoPeerFree, Call, core_after_call, core_after_calls, was_brought, items_missing};

/// Where no ask is due, each missing item is in flight, or each peer has three strikes or four asks.
pub fn no_item_is_lost()
    ensures { (c : Core) → next_ask c ≡ None → AllInFlight c ⊎ NoPeerFree c }
{}

/// While a list of items is the current one, an item of it is missing exactly where no right bytes of it were delivered,
/// whoever sent them and whatever strikes and asks there are.
pub fn items_are_missing_until_brought()
    ensures { (c : Core) (calls : List Call) → items_missing (core_after_calls c calls) ≡ filter (λ i. not (was_brought calls i)) (items_missing c) }
{}

/// What always holds of a core lasts under each call, where an ask is the one that is due.
pub fn cores_last()
    ensures { (c : Core) (call : Call) → IsDueCall c call → IsCore c → IsCore (core_after_call c call) }
{}

/// It holds as a sync begins, and with each new list of items.
pub fn cores_begin()
    ensures first { (peers : ℕ) → peers ≤ MAX_PEERS → IsCore (core_at_start peers) }
    ensures pieces { (c : Core) (n : ℕ) → IsCore c → IsCore (with_items c (all_pieces n)) }
    ensures chunks { (c : Core) (n : ℕ) (had : List ℕ) → IsCore c → IsCore (with_items c (chunks_without n had)) }
{}
